//! The calls on a bridge beside a store: its questions.

ghost use Rattle.std.specs.Prelude.{◌≡◌, ◌==◌, not};
ghost use Rattle.std.specs.declared.option.Option.TheVariants.{None};
ghost use Rattle.c_bridge.specs.State.{bridge_doubting, bridge_parted, bridge_rereading};
ghost use Rattle.ds_c.specs.Bridges.{AsksBeside, AsksByBridge, AsksOf, FetchesOf, GathersAt, GathersBeside, GathersFrom};
ghost use Rattle.ds_c.specs.Bridges.{KeepsAllElse, MovesIn, OpenedBridge, OpensBridge, added_from, snapshot_from};
ghost use Rattle.ds_c.specs.Calls.{Closes};

use crate::bridge_faults::word_of;
use crate::bridge_handle::BridgeHandle;
use crate::bridge_question::BridgeQuestion;
use crate::handle::Handle;
use crate::words::{DONE, IS_CLOSED, IS_OPEN, NO_ROOM};
use c_bridge::StoreBridge;
use c_keeper::KeeperSession;
use c_values::Given;
use ds_store::Store;
use fleet_bridge::Due;
use std::alloc::Global;

/// Opens a bridge beside the store of an open handle, in a closed handle of its own. All that the store holds is to be sent. Returns 0,
/// or that memory ran out, the store's handle is closed, or the bridge's is open. By law `calls_happen` of `c_bridge`, each later call
/// with the same store is an event of `fleet_rule`, or more than one, or none.
#[unsafe(no_mangle)]
pub extern "C" fn ds_bridge_open(
    alloc: Global,
    handle: &mut BridgeHandle,
    store: &mut Handle,
) -> u32
    ensures opened { OpensBridge store.old.value handle.old.value result handle.new.value }
    ensures store { store.new.value ≡ store.old.value }
{
    match handle.take(alloc) {
        Some(bridge) => {
            handle.put(alloc, bridge);
            IS_OPEN
        }
        None => match store.take(alloc) {
            None => IS_CLOSED,
            Some(session) => {
                let word = bridge_in(alloc, session.rs.session.node.store(), handle);
                store.put(alloc, session);
                word
            }
        },
    }
}

fn bridge_in(alloc: Global, store: &Store, handle: &mut BridgeHandle) -> u32
    requires { handle.old.value ≡ None }
    ensures { OpenedBridge store.now result handle.new.value }
{
    match StoreBridge::open(alloc, store) {
        Ok(bridge) => match Box::new(alloc, bridge) {
            Ok(bridge) => {
                handle.put(alloc, bridge);
                DONE
            }
            Err(_) => NO_ROOM,
        },
        Err(_) => NO_ROOM,
    }
}

/// Gathers items that took effect in the store, at most 256, as `StoreBridge::gather` does.
#[unsafe(no_mangle)]
pub extern "C" fn ds_bridge_gather(
    alloc: Global,
    handle: &mut BridgeHandle,
    store: &mut Handle,
) -> u32
    ensures { GathersAt store.old.value handle.old.value result store.new.value handle.new.value }
{
    match handle.take(alloc) {
        None => IS_CLOSED,
        Some(mut bridge) => {
            let word = gather_at(alloc, &mut bridge, store);
            handle.put(alloc, bridge);
            word
        }
    }
}

fn gather_at(alloc: Global, bridge: &mut StoreBridge, store: &mut Handle) -> u32
    ensures { GathersBeside store.old.value bridge.old result store.new.value bridge.new }
{
    match store.take(alloc) {
        None => IS_CLOSED,
        Some(mut session) => {
            let word = gather_of(alloc, bridge, &mut session);
            store.put(alloc, session);
            word
        }
    }
}

fn gather_of(alloc: Global, bridge: &mut StoreBridge, session: &mut KeeperSession) -> u32
    ensures kept { KeepsAllElse session.old session.new }
    ensures gathered { GathersFrom session.old.rs.session.node.store bridge.old result session.new.rs.session.node.store bridge.new }
{
    let store = session.rs.session.node.store_mut();
    let outcome = bridge.gather(alloc, store);
    word_of(&outcome)
}

/// Writes the next question, which is under way from then on, as `StoreBridge::ask` does.
#[unsafe(no_mangle)]
pub extern "C" fn ds_bridge_ask(
    alloc: Global,
    handle: &mut BridgeHandle,
    store: &mut Handle,
    compaction: u8,
    most: u64,
    question: &mut BridgeQuestion,
) -> u32
    ensures asked { AsksByBridge store.old.value handle.old.value (record { compaction = not (compaction == 0); most = most })
        question.old result question.new handle.new.value }
    ensures store { store.new.value ≡ store.old.value }
{
    match handle.take(alloc) {
        None => IS_CLOSED,
        Some(mut bridge) => {
            let due = Due {
                compaction: compaction != 0,
                most,
            };
            let word = ask_at(alloc, &mut bridge, store, due, question);
            handle.put(alloc, bridge);
            word
        }
    }
}

fn ask_at(
    alloc: Global,
    bridge: &mut StoreBridge,
    store: &mut Handle,
    due: Due,
    question: &mut BridgeQuestion,
) -> u32
    ensures asked { AsksBeside store.old.value bridge.old due question.old result question.new bridge.new }
    ensures store { store.new.value ≡ store.old.value }
{
    match store.take(alloc) {
        None => IS_CLOSED,
        Some(session) => {
            let word = ask_of(
                alloc,
                bridge,
                session.rs.session.node.store(),
                due,
                question,
            );
            store.put(alloc, session);
            word
        }
    }
}

fn ask_of(
    alloc: Global,
    bridge: &mut StoreBridge,
    store: &Store,
    due: Due,
    question: &mut BridgeQuestion,
) -> u32
    ensures { AsksOf store.now bridge.old due question.old result question.new bridge.new }
{
    let outcome = bridge.ask(alloc, store, due);
    if let Ok(asked) = outcome {
        *question = BridgeQuestion::of(asked, bridge);
    }
    word_of(&outcome)
}

/// Copies to `room` the lines of the items that the question under way adds, from the line at index `first` on: as many whole ones as fit.
#[unsafe(no_mangle)]
pub extern "C" fn ds_bridge_items(
    alloc: Global,
    handle: &mut BridgeHandle,
    first: usize,
    room: &mut [u8],
    given: &mut Given,
) -> u32
    ensures text { FetchesOf (added_from first) handle.old.value room.old given.old result room.new given.new }
    ensures handle { handle.new.value ≡ handle.old.value }
{
    match handle.take(alloc) {
        None => IS_CLOSED,
        Some(bridge) => {
            *given = bridge.give_added(alloc, first, room);
            handle.put(alloc, bridge);
            DONE
        }
    }
}

/// Likewise for the snapshot of the compaction under way.
#[unsafe(no_mangle)]
pub extern "C" fn ds_bridge_snapshot(
    alloc: Global,
    handle: &mut BridgeHandle,
    first: usize,
    room: &mut [u8],
    given: &mut Given,
) -> u32
    ensures text { FetchesOf (snapshot_from first) handle.old.value room.old given.old result room.new given.new }
    ensures handle { handle.new.value ≡ handle.old.value }
{
    match handle.take(alloc) {
        None => IS_CLOSED,
        Some(bridge) => {
            *given = bridge.give_snapshot(alloc, first, room);
            handle.put(alloc, bridge);
            DONE
        }
    }
}

/// Notes that another bridge holds something else: all that is held is sent once more.
#[unsafe(no_mangle)]
pub extern "C" fn ds_bridge_differs(alloc: Global, handle: &mut BridgeHandle) -> u32
    ensures { MovesIn bridge_doubting handle.old.value result handle.new.value }
{
    match handle.take(alloc) {
        None => IS_CLOSED,
        Some(mut bridge) => {
            bridge.differs();
            handle.put(alloc, bridge);
            DONE
        }
    }
}

/// Begins to read everything once more.
#[unsafe(no_mangle)]
pub extern "C" fn ds_bridge_reread(alloc: Global, handle: &mut BridgeHandle) -> u32
    ensures { MovesIn bridge_rereading handle.old.value result handle.new.value }
{
    match handle.take(alloc) {
        None => IS_CLOSED,
        Some(mut bridge) => {
            bridge.reread();
            handle.put(alloc, bridge);
            DONE
        }
    }
}

/// Notes that both connections ended, and what was under way on them.
#[unsafe(no_mangle)]
pub extern "C" fn ds_bridge_parted(alloc: Global, handle: &mut BridgeHandle) -> u32
    ensures { MovesIn bridge_parted handle.old.value result handle.new.value }
{
    match handle.take(alloc) {
        None => IS_CLOSED,
        Some(mut bridge) => {
            bridge.parted(alloc);
            handle.put(alloc, bridge);
            DONE
        }
    }
}

/// Closes an open handle, and frees its memory.
#[unsafe(no_mangle)]
pub extern "C" fn ds_bridge_close(alloc: Global, handle: &mut BridgeHandle) -> u32
    ensures { Closes handle.old.value result handle.new.value }
{
    match handle.take(alloc) {
        None => IS_CLOSED,
        Some(bridge) => {
            drop(bridge);
            DONE
        }
    }
}
