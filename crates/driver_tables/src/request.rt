//! The pending requests, in order of submission.

ghost use Rattle.std.specs.Prelude.{◌≡◌, ◌≢◌, ◌++◌, ◌==◌, [], Bool, true, false, filter, not, OnOk, OnErr};
ghost use Rattle.std.specs.List.{find};
ghost use Rattle.std.specs.Option.{option_map};
ghost use Rattle.driver_tables.specs.Submit.{submitted};
ghost use Rattle.driver_tables.specs.Requests.{is_ending, stays_pending, sent_again, settled_by, settled_in, all_settled_in};
ghost use Rattle.driver_tables.specs.Requests.{kept_after, is_kept_in, kept_in, all_kept_in};

use crate::device::{Class, Device, device_at};
use crate::moves::{Ending, Move, Moves};
use ds_names::{Endpoint, Name, NoRoom};
use indexmap::IndexMap;

/// An unanswered request, and where it was last sent.
#[derive(Clone, Copy)]
pub struct Pending {
    pub id: u64,
    pub unit: u8,
    pub sent: Option<Endpoint>,
}

// Returns the move of a new request: it is sent; without a driver, a block device's is held and others fail.
pub(crate) fn submitted(class: Class, id: u64, now: &Option<Endpoint>) -> Move
    ensures { result ≡ submitted class id now.now }
{
    if let Some(endpoint) = now {
        return Move::Send {
            id,
            endpoint: *endpoint,
        };
    }
    match class {
        Class::Block => Move::Held { id },
        Class::Character | Class::Network => Move::Answer {
            id,
            ending: Ending::Fault,
        },
    }
}

pub(crate) fn is_ending(step: &Move) -> bool
    ensures { result ≡ is_ending step.now }
{
    match step {
        Move::Answer { .. } => true,
        Move::Start { .. } | Move::Send { .. } | Move::Held { .. } => false,
    }
}

// Returns where a pending request was last sent; `None` if no such request is pending.
pub(crate) fn sent_of(pending: &Vec<Pending>, id: u64) -> Option<Option<Endpoint>>
    ensures { result ≡ option_map (λ (p : Pending). p.sent) (find (λ (p : Pending). p.id == id) pending.now.items) }
{
    for p in pending {
        if p.id == id {
            return Some(p.sent);
        }
    }
    None
}

// Removes an answered request.
pub(crate) fn end(pending: &mut Vec<Pending>, id: u64)
    ensures { pending.new.items ≡ filter (λ (p : Pending). not (p.id == id)) pending.old.items }
{
    pending.retain(
        |p: &Pending| -> bool
            ensures { result ≡ not (p.now.id == id) }
        { p.id != id },
    );
}

// Appends the moves of the pending requests under a new state of the label.
pub(crate) fn add_settled(
    moves: &mut Moves,
    devices: &IndexMap<u8, Device>,
    pending: &Vec<Pending>,
    label: &Name,
    state: &Option<Endpoint>,
) -> Result<(), NoRoom>
    ensures added { OnOk result (moves.new ≡ moves.old ++ all_settled_in devices.now.entries label.now state.now pending.now.items) }
    ensures room { OnErr result (all_settled_in devices.now.entries label.now state.now pending.now.items ≢ []) }
{
    for p in pending {
        moves.add(settled(devices, label, state, p))?;
    }
    Ok(())
}

// Updates the pending requests by the moves of `add_settled`. It takes no memory.
pub(crate) fn settle(
    pending: &mut Vec<Pending>,
    devices: &IndexMap<u8, Device>,
    label: &Name,
    state: &Option<Endpoint>,
)
    ensures { pending.new.items ≡ all_kept_in devices.now.entries label.now state.now pending.old.items }
{
    pending.retain_mut(
        |p: &mut Pending| -> bool
            ensures stays { result ≡ is_kept_in devices.entry.now.entries label.entry.now state.entry.now p.old }
            ensures sent { p.new ≡ kept_in devices.entry.now.entries label.entry.now state.entry.now p.old }
        { keep(p, settled(devices, label, state, p)) },
    );
}

// Updates a pending request by its move. Returns false if the request ended.
fn keep(p: &mut Pending, step: Option<Move>) -> bool
    ensures stays { result ≡ stays_pending step }
    ensures kept { p.new ≡ kept_after step p.old }
{
    let Some(step) = step else {
        return true;
    };
    if let Move::Send { endpoint, .. } = step {
        p.sent = Some(endpoint);
    }
    !is_ending(&step)
}

// Returns the move of a pending request under a new state of the label.
fn settled(
    devices: &IndexMap<u8, Device>,
    label: &Name,
    state: &Option<Endpoint>,
    p: &Pending,
) -> Option<Move>
    ensures { result ≡ settled_in devices.now.entries label.now state.now p.now }
{
    let device = device_at(devices, p.unit)?;
    let _newest = device.newest;
    settled_by(label, state, p, device)
}

// As `settled`, for the request's device: `None` if it has another label. A request to a block driver is sent again; any other is
// answered Fault.
fn settled_by(label: &Name, state: &Option<Endpoint>, p: &Pending, device: &Device) -> Option<Move>
    ensures { result ≡ settled_by label.now state.now p.now device.now }
{
    if *label != device.label {
        return None;
    }
    let id = p.id;
    match device.class {
        Class::Block => sent_again(id, state),
        Class::Character | Class::Network => Some(Move::Answer {
            id,
            ending: Ending::Fault,
        }),
    }
}

// Returns a Send of a block driver's request to the new endpoint; `None`, so that it waits, if there is none.
fn sent_again(id: u64, state: &Option<Endpoint>) -> Option<Move>
    ensures { result ≡ sent_again id state.now }
{
    match state {
        Some(endpoint) => Some(Move::Send {
            id,
            endpoint: *endpoint,
        }),
        None => None,
    }
}
