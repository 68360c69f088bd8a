//! The turns of RS and its store: a client's command, a beginning, an event.

ghost use Rattle.std.specs.Prelude.{◌≡◌, ◌≤◌, true, [], length, vec_capacity, IfSome, IfNone};
ghost use Rattle.std.specs.List.{AllByRecursion};
ghost use Rattle.rs_core.specs.Action.{IsActionInPlace};
ghost use Rattle.rs_core.specs.Planning.{acts};
ghost use Rattle.rs_to_store.specs.Asked.{command_of as command_for};
ghost use Rattle.ds_store.specs.Turns.{Turn};
ghost use Rattle.rs_store.specs.Serving.{ClientTurn, BeginTurn, EventTurn};
ghost use Rattle.rs_store.specs.Serving.{TurnFor, TurnsFor, before_beginning as reply_without};

use crate::by_rs::is_by_rs;
use crate::call::RsReply;
use crate::replies::Replies;
use ds_machine::{Command, Reply};
use ds_names::NoRoom;
use ds_store::Store;
use rs_core::{Action, Actions, Event, Plan, Rs, RsFault, steps_say};
use rs_settings::Settings;
use rs_to_store::command_of;
use std::alloc::Global;

/// The most actions of one event: a kill, a tombstone of a label, a sweep, a start and a label's put.
const MOST_ACTIONS: usize = 5;

// Passes a client's command to the store, or refuses it as NotAllowed, as `RsStore::answer` does.
pub(crate) fn ask(services: &Option<Rs>, store: &mut Store, command: Command) -> RsReply
    ensures { ClientTurn services.now store.old command result store.new }
{
    if services.is_some() && is_by_rs(&command) {
        return RsReply::NotAllowed;
    }
    RsReply::Replied(turn(store, command))
}

// Begins RS, as `RsStore::begin` does.
pub(crate) fn begin(
    alloc: Global,
    services: &mut Option<Rs>,
    settings: Settings,
    next: u32,
    first: u16,
) -> RsReply
    ensures { BeginTurn services.old settings next first result services.new }
{
    if services.is_some() {
        return RsReply::Exists;
    }
    let (count, slots) = (settings.services().len(), settings.slots());
    match Rs::from_slot(alloc, settings, next, first) {
        Ok(rs) => {
            *services = Some(rs);
            RsReply::Begun {
                services: count,
                slots,
            }
        }
        Err(fault) => RsReply::NotBegun(fault),
    }
}

// Passes an event to RS, as `RsStore::tell` does.
pub(crate) fn serve(
    alloc: Global,
    services: &mut Option<Rs>,
    store: &mut Store,
    event: Event,
    tick: u64,
) -> RsReply
    ensures { EventTurn event tick services.old store.old result services.new store.new }
{
    steps_say();
    let Some(rs) = services else {
        return without_settings(alloc, &event);
    };
    let plan = match rs.plan(&event, tick) {
        Ok(plan) => plan,
        Err(fault) => return RsReply::Refused(fault),
    };
    let Some(mut replies) = room_for(alloc, &plan) else {
        return RsReply::Refused(RsFault::NoRoom);
    };
    let given_up = rs.given_up(&plan);
    match rs.carry_out(plan) {
        Ok(actions) => {
            pass_on(store, &actions, &mut replies);
            RsReply::Acted {
                actions,
                replies: Replies::of(replies),
                given_up,
            }
        }
        Err(NoRoom) => RsReply::Refused(RsFault::NoRoom),
    }
}

// Allocates a list for the replies to a plan's actions, or returns `None` if memory runs out. This is done before RS
// steps, since no reply may be lost after the step. A plan without actions takes no memory.
fn room_for(alloc: Global, plan: &Plan) -> Option<Vec<Option<Reply>>>
    ensures none { IfSome result (λ replies. replies.items ≡ []) }
    ensures room { IfSome result (λ replies. acts plan.now ≡ true → 5 ≤ vec_capacity replies) }
    ensures wanted { IfNone result (acts plan.now ≡ true) }
{
    if !plan.acts() {
        return Some(Vec::new(alloc));
    }
    match Vec::with_capacity(alloc, MOST_ACTIONS) {
        Ok(replies) => Some(replies),
        Err(_) => None,
    }
}

// Returns the reply to an event before RS has begun.
fn without_settings(alloc: Global, event: &Event) -> RsReply
    ensures { result ≡ reply_without event.now }
{
    match event {
        Event::Up(_) | Event::Stop(_) | Event::Refresh(_) | Event::Restart(_) => {
            RsReply::Refused(RsFault::UnknownLabel)
        }
        Event::Death(_, _) | Event::Beat(_) => RsReply::Refused(RsFault::OldEndpoint),
        Event::Tick => RsReply::Acted {
            actions: Actions::new(alloc),
            replies: Replies::of(Vec::new(alloc)),
            given_up: None,
        },
    }
}

// Passes the actions to the store, in order. The list has room for the replies.
fn pass_on(store: &mut Store, actions: &Actions, replies: &mut Vec<Option<Reply>>)
    requires in_place { AllByRecursion IsActionInPlace actions.now }
    requires room { length actions.now ≤ vec_capacity replies.old }
    requires none { replies.old.items ≡ [] }
    ensures { TurnsFor store.old actions.now replies.new.items store.new }
{
    for index in 0..actions.len() {
        let Some(action) = actions.get(index) else {
            unreachable!()
        };
        replies.push_reserved(turn_for(store, action));
    }
}

// Runs the store's turn for an action, if it is a command to the store.
fn turn_for(store: &mut Store, action: &Action) -> Option<Reply>
    requires { IsActionInPlace action.now }
    ensures { TurnFor store.old (command_for action.now) result store.new }
{
    let command = command_of(action)?;
    Some(turn(store, command))
}

// Runs one turn of the store.
fn turn(store: &mut Store, command: Command) -> Reply
    ensures { Turn store.old command result store.new }
{
    let _stood = store.cursor();
    store.apply(command)
}
