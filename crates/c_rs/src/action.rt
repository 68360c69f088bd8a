//! Actions of RS, as C has them.

ghost use Rattle.std.specs.Prelude.{◌≡◌};
ghost use Rattle.std.specs.Option.{option_copied};
ghost use Rattle.c_rs.specs.Action.{action_at, action_in, blank, given_up_action, label_block, told_action};
ghost use Rattle.c_rs.specs.Action.{told_change, told_floor, told_part, with_endpoint, with_label};

use crate::session::RsSession;
use c_values::answer_of;
use ds_entry::{Body, Change, Floor, Value};
use ds_machine::Reply;
use ds_names::{Endpoint, Name};
use rs_core::{Action, Rs};
use rs_store::RsReply;

/// An action of RS.
#[repr(C)]
#[derive(Clone, Copy)]
pub struct RsAction {
    /// 0 kill, 1 start, 2 ping, 3 offer, 4 sweep, 5 a service is given up.
    pub kind: u32,
    /// With `slot`, an endpoint. Of a sweep, and of a label that ends, the generation.
    pub generation: u32,
    /// The store's answer to an offer or a sweep, as in `Answer`.
    pub word: u32,
    pub refusal: u32,
    pub slot: u16,
    /// 1 if an offer ends the label.
    pub gone: u8,
    /// How many bytes the label has.
    pub label_length: u8,
    pub label: [u8; 64],
}

impl RsSession {
    /// Returns the action of the last answer at an index from 0: RS's own in order, and then that of a service given up, if there is
    /// one. `None` past the end.
    pub fn action(&self, index: usize) -> Option<RsAction>
        ensures { result ≡ action_in self.now index }
    {
        match &self.told {
            Some(reply) => action_at(self.session.node.services(), reply, index),
            None => None,
        }
    }
}

// Returns the action of a reply at an index.
fn action_at(services: Option<&Rs>, reply: &RsReply, index: usize) -> Option<RsAction>
    ensures { result ≡ action_at (option_copied services.entry) reply.now index }
{
    let RsReply::Acted {
        actions,
        replies,
        given_up,
    } = reply
    else {
        return None;
    };
    match actions.get(index) {
        Some(action) => Some(told_action(action, replies.get(index))),
        None if index == actions.len() => given_up_action(services, *given_up),
        None => None,
    }
}

// Returns the action that reports a service given up.
fn given_up_action(services: Option<&Rs>, given_up: Option<usize>) -> Option<RsAction>
    ensures { result ≡ given_up_action (option_copied services.entry) given_up }
{
    let Some(rs) = services else {
        return None;
    };
    let index = given_up?;
    let service = rs.settings().services().get(index)?;
    Some(with_label(blank(5), &service.label))
}

// Returns the struct of an action, with the store's answer.
fn told_action(action: &Action, reply: Option<&Option<Reply>>) -> RsAction
    ensures { result ≡ told_action action.now (option_copied reply.entry) }
{
    let part = told_part(action);
    match reply {
        Some(Some(reply)) => {
            let answer = answer_of(reply);
            RsAction {
                word: answer.word,
                refusal: answer.refusal,
                ..part
            }
        }
        _ => part,
    }
}

// Returns the struct of an action.
fn told_part(action: &Action) -> RsAction
    ensures { result ≡ told_part action.now }
{
    match action {
        Action::Kill(endpoint) => with_endpoint(blank(0), *endpoint),
        Action::Start(label, endpoint) => with_label(with_endpoint(blank(1), *endpoint), label),
        Action::Ping(endpoint) => with_endpoint(blank(2), *endpoint),
        Action::Offer(change) => told_change(change),
        Action::Sweep(floor) => told_floor(floor),
    }
}

// Returns the struct of an offer.
fn told_change(change: &Change) -> RsAction
    ensures { result ≡ told_change change.now }
{
    let (slot, gone) = match change.body() {
        Body::Put(Value::Label(endpoint)) => (endpoint.slot(), 0),
        Body::Put(_) => (0, 0),
        Body::Gone => (0, 1),
    };
    let action = RsAction {
        generation: change.version().epoch.number(),
        slot,
        gone,
        ..blank(3)
    };
    with_label(action, &change.key().name)
}

// Returns the struct of a sweep.
fn told_floor(floor: &Floor) -> RsAction
    ensures { result ≡ told_floor floor.now }
{
    let action = RsAction {
        generation: floor.generation.number(),
        ..blank(4)
    };
    with_label(action, &floor.owner)
}

// Returns an action of a kind, with zeros for the rest.
fn blank(kind: u32) -> RsAction
    ensures { result ≡ blank kind }
{
    RsAction {
        kind,
        generation: 0,
        word: 0,
        refusal: 0,
        slot: 0,
        gone: 0,
        label_length: 0,
        label: [0; 64],
    }
}

// Returns the action with this endpoint.
fn with_endpoint(action: RsAction, endpoint: Endpoint) -> RsAction
    ensures { result ≡ with_endpoint action endpoint }
{
    RsAction {
        generation: endpoint.generation().number(),
        slot: endpoint.slot(),
        ..action
    }
}

// Returns the action with this label.
fn with_label(action: RsAction, label: &Name) -> RsAction
    ensures { result ≡ with_label action label.now }
{
    RsAction {
        label_length: label.bytes().len() as u8,
        label: block_of(label),
        ..action
    }
}

/// Returns a block with the bytes of a name, and zeros after them.
pub(crate) fn block_of(name: &Name) -> [u8; 64]
    ensures { result ≡ label_block name.now }
{
    let bytes = name.bytes();
    let mut block = [0; 64];
    block[..bytes.len()].copy_from_slice(bytes);
    block
}
