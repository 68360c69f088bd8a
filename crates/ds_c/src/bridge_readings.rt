//! The calls on a bridge beside a store: its readings of the log.

ghost use Rattle.std.specs.Prelude.{◌≡◌, ◌==◌, not};
ghost use Rattle.ds_c.specs.Bridges.{AnswersIn, DoesAt, DoesByBoth, DoesIn, EntersOr, KeepsAllElse, ReadsAfter, TakesConsumed};

use crate::bridge_faults::word_of;
use crate::bridge_handle::BridgeHandle;
use crate::bridge_id::BridgeId;
use crate::bridge_taken::BridgeTaken;
use crate::handle::Handle;
use crate::words::{DONE, IS_CLOSED, NOT_FOUND};
use c_bridge::StoreBridge;
use c_keeper::KeeperSession;
use std::alloc::Global;

/// Writes the id after which the next reading begins, which is under way from then on. Returns NotFound if none may begin.
#[unsafe(no_mangle)]
pub extern "C" fn ds_bridge_read(
    alloc: Global,
    handle: &mut BridgeHandle,
    from: &mut BridgeId,
) -> u32
    ensures { AnswersIn (λ b before w id e. ReadsAfter b before w id e) handle.old.value from.old result from.new handle.new.value }
{
    match handle.take(alloc) {
        None => IS_CLOSED,
        Some(mut bridge) => {
            let word = read_of(alloc, &mut bridge, from);
            handle.put(alloc, bridge);
            word
        }
    }
}

fn read_of(alloc: Global, bridge: &mut StoreBridge, from: &mut BridgeId) -> u32
    ensures { ReadsAfter bridge.old from.old result from.new bridge.new }
{
    match bridge.read(alloc) {
        Some(id) => {
            *from = BridgeId::of(id);
            DONE
        }
        None => NOT_FOUND,
    }
}

/// Takes one entry of the reading under way: its id, and its items as lines. They are kept until the reading ends.
#[unsafe(no_mangle)]
pub extern "C" fn ds_bridge_entry(
    alloc: Global,
    handle: &mut BridgeHandle,
    id: &BridgeId,
    lines: &[u8],
) -> u32
    ensures { DoesIn (λ b w e. EntersOr b id.now lines.now w e) handle.old.value result handle.new.value }
{
    match handle.take(alloc) {
        None => IS_CLOSED,
        Some(mut bridge) => {
            let outcome = bridge.entry(alloc, id.id(), lines);
            let word = word_of(&outcome);
            handle.put(alloc, bridge);
            word
        }
    }
}

/// Ends the reading under way, and writes what became of its items, as `StoreBridge::consumed` does.
#[unsafe(no_mangle)]
pub extern "C" fn ds_bridge_consumed(
    alloc: Global,
    handle: &mut BridgeHandle,
    store: &mut Handle,
    end: &BridgeId,
    is_all: u8,
    taken: &mut BridgeTaken,
) -> u32
    ensures { DoesByBoth (λ c b before w told d e. TakesConsumed c b end.now (not (is_all == 0)) before w told d e)
        store.old.value handle.old.value taken.old result taken.new store.new.value handle.new.value }
{
    match handle.take(alloc) {
        None => IS_CLOSED,
        Some(mut bridge) => {
            let word = consumed_at(alloc, &mut bridge, store, end, is_all != 0, taken);
            handle.put(alloc, bridge);
            word
        }
    }
}

fn consumed_at(
    alloc: Global,
    bridge: &mut StoreBridge,
    store: &mut Handle,
    end: &BridgeId,
    is_all: bool,
    taken: &mut BridgeTaken,
) -> u32
    ensures { DoesAt (λ c b before w told d e. TakesConsumed c b end.now is_all before w told d e)
        store.old.value bridge.old taken.old result taken.new store.new.value bridge.new }
{
    match store.take(alloc) {
        None => IS_CLOSED,
        Some(mut session) => {
            let word = consumed_of(alloc, bridge, &mut session, end, is_all, taken);
            store.put(alloc, session);
            word
        }
    }
}

fn consumed_of(
    alloc: Global,
    bridge: &mut StoreBridge,
    session: &mut KeeperSession,
    end: &BridgeId,
    is_all: bool,
    taken: &mut BridgeTaken,
) -> u32
    ensures kept { KeepsAllElse session.old session.new }
    ensures taken { TakesConsumed session.old.rs.session.node.store bridge.old end.now is_all
        taken.old result taken.new session.new.rs.session.node.store bridge.new }
{
    let store = session.rs.session.node.store_mut();
    let outcome = bridge.consumed(alloc, store, end.id(), is_all);
    if let Ok(some) = outcome {
        *taken = BridgeTaken::of_reading(some);
    }
    word_of(&outcome)
}
