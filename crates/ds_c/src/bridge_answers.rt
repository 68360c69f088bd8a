//! The calls on a bridge beside a store: what its server answers.

ghost use Rattle.std.specs.Prelude.{◌≡◌};
ghost use Rattle.c_bridge.specs.State.{bridge_refused};
ghost use Rattle.ds_c.specs.Bridges.{AcknowledgesOr, AnswersIn, DoesAt, DoesByBoth, DoesIn, KeepsAllElse, MeetsOr, MovesIn, TakesFetched};

use crate::bridge_faults::word_of;
use crate::bridge_handle::BridgeHandle;
use crate::bridge_id::BridgeId;
use crate::bridge_taken::BridgeTaken;
use crate::handle::Handle;
use crate::words::{DONE, IS_CLOSED};
use c_bridge::StoreBridge;
use c_keeper::KeeperSession;
use std::alloc::Global;

/// Takes the history that the server has, by its number.
#[unsafe(no_mangle)]
pub extern "C" fn ds_bridge_met(alloc: Global, handle: &mut BridgeHandle, history: u64) -> u32
    ensures { DoesIn (λ b w e. MeetsOr b history w e) handle.old.value result handle.new.value }
{
    match handle.take(alloc) {
        None => IS_CLOSED,
        Some(mut bridge) => {
            let outcome = bridge.met(history);
            let word = word_of(&outcome);
            handle.put(alloc, bridge);
            word
        }
    }
}

/// Takes an acknowledgement of the question under way, and writes how many items leave the outbox.
#[unsafe(no_mangle)]
pub extern "C" fn ds_bridge_added(alloc: Global, handle: &mut BridgeHandle, count: &mut u64) -> u32
    ensures { AnswersIn (λ b before w n e. AcknowledgesOr b before w n e) handle.old.value count.old result count.new handle.new.value }
{
    match handle.take(alloc) {
        None => IS_CLOSED,
        Some(mut bridge) => {
            let word = added_of(alloc, &mut bridge, count);
            handle.put(alloc, bridge);
            word
        }
    }
}

fn added_of(alloc: Global, bridge: &mut StoreBridge, count: &mut u64) -> u32
    ensures { AcknowledgesOr bridge.old count.old result count.new bridge.new }
{
    let outcome = bridge.added(alloc);
    if let Ok(added) = outcome {
        *count = added;
    }
    word_of(&outcome)
}

/// Notes that the server refused the question under way.
#[unsafe(no_mangle)]
pub extern "C" fn ds_bridge_refused(alloc: Global, handle: &mut BridgeHandle) -> u32
    ensures { MovesIn bridge_refused handle.old.value result handle.new.value }
{
    match handle.take(alloc) {
        None => IS_CLOSED,
        Some(mut bridge) => {
            bridge.refused(alloc);
            handle.put(alloc, bridge);
            DONE
        }
    }
}

/// Takes the snapshot that was asked for, up to the entry of the id `end`, and writes what became of its items.
#[unsafe(no_mangle)]
pub extern "C" fn ds_bridge_fetched(
    alloc: Global,
    handle: &mut BridgeHandle,
    store: &mut Handle,
    end: &BridgeId,
    lines: &[u8],
    taken: &mut BridgeTaken,
) -> u32
    ensures { DoesByBoth (λ c b before w told d e. TakesFetched c b end.now lines.now before w told d e)
        store.old.value handle.old.value taken.old result taken.new store.new.value handle.new.value }
{
    match handle.take(alloc) {
        None => IS_CLOSED,
        Some(mut bridge) => {
            let word = fetched_at(alloc, &mut bridge, store, end, lines, taken);
            handle.put(alloc, bridge);
            word
        }
    }
}

fn fetched_at(
    alloc: Global,
    bridge: &mut StoreBridge,
    store: &mut Handle,
    end: &BridgeId,
    lines: &[u8],
    taken: &mut BridgeTaken,
) -> u32
    ensures { DoesAt (λ c b before w told d e. TakesFetched c b end.now lines.now before w told d e)
        store.old.value bridge.old taken.old result taken.new store.new.value bridge.new }
{
    match store.take(alloc) {
        None => IS_CLOSED,
        Some(mut session) => {
            let word = fetched_of(alloc, bridge, &mut session, end, lines, taken);
            store.put(alloc, session);
            word
        }
    }
}

fn fetched_of(
    alloc: Global,
    bridge: &mut StoreBridge,
    session: &mut KeeperSession,
    end: &BridgeId,
    lines: &[u8],
    taken: &mut BridgeTaken,
) -> u32
    ensures kept { KeepsAllElse session.old session.new }
    ensures taken { TakesFetched session.old.rs.session.node.store bridge.old end.now lines.now
        taken.old result taken.new session.new.rs.session.node.store bridge.new }
{
    let store = session.rs.session.node.store_mut();
    let outcome = bridge.fetched(alloc, store, end.id(), lines);
    if let Ok(some) = outcome {
        *taken = BridgeTaken::of(some);
    }
    word_of(&outcome)
}
