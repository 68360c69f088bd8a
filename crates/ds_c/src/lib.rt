//! The data store for C, which `ds.h` declares: handles of stores with RS beside them, of
//! subscribers' maps, of servers' driver tables, of desks that threads share, with their seats, and of bridges between hosts.
#![tactic(auto)]

mod bridge_answers;
mod bridge_faults;
mod bridge_handle;
mod bridge_id;
mod bridge_question;
mod bridge_readings;
mod bridge_taken;
mod bridges;
mod desk_handle;
mod desks;
mod entries;
mod handle;
mod keepers;
mod law;
mod lines;
mod loose;
mod map_handle;
mod maps;
mod renewing;
mod runs;
mod seat_handle;
mod services;
mod table_handle;
mod tables;
mod words;

ghost use Rattle.std.specs.Prelude.{◌≡◌};
ghost use Rattle.std.specs.declared.option.Option.TheVariants.{None};
ghost use Rattle.c_holders.specs.Agree.{HandlesAgree};
ghost use Rattle.ds_c.specs.Calls.{Opens, Opened, Calls, Fetches, Closes};

pub use bridge_answers::{ds_bridge_added, ds_bridge_fetched, ds_bridge_met, ds_bridge_refused};
pub use bridge_handle::BridgeHandle;
pub use bridge_id::BridgeId;
pub use bridge_question::BridgeQuestion;
pub use bridge_readings::{ds_bridge_consumed, ds_bridge_entry, ds_bridge_read};
pub use bridge_taken::BridgeTaken;
pub use bridges::{
    ds_bridge_ask, ds_bridge_close, ds_bridge_differs, ds_bridge_gather, ds_bridge_items,
    ds_bridge_open, ds_bridge_parted, ds_bridge_reread, ds_bridge_snapshot,
};
use c_holders::handles_agree;
use c_keeper::KeeperSession;
use c_rs::RsSession;
use c_values::{Answer, Given, Request, refusal_number};
pub use desk_handle::DeskHandle;
pub use desks::{
    ds_desk_close, ds_desk_open, ds_seat_call, ds_seat_close, ds_seat_items, ds_seat_open,
    ds_seat_take,
};
use ds_machine::Refusal;
pub use entries::{MapKey, ds_map_next, ds_map_value};
pub use handle::Handle;
pub use keepers::{
    ds_keeper_due, ds_keeper_event, ds_keeper_note, ds_keeper_open, ds_keeper_report,
    ds_keeper_task, ds_keeper_to_write, ds_keeper_vouch, ds_keeper_written,
};
pub use law::handles_cross;
pub use lines::{ds_call_line, ds_text};
pub use map_handle::MapHandle;
pub use maps::{ds_map_close, ds_map_label, ds_map_new, ds_map_take};
pub use renewing::ds_rs_renew;
pub use runs::ds_run;
pub use seat_handle::SeatHandle;
pub use services::{
    ds_rs_action, ds_rs_due, ds_rs_event, ds_rs_may_complain, ds_rs_may_connect, ds_rs_may_publish,
    ds_rs_next, ds_rs_open, ds_rs_service,
};
use std::alloc::Global;
pub use table_handle::TableHandle;
pub use tables::{
    ds_table_assign, ds_table_close, ds_table_follow, ds_table_moves, ds_table_new, ds_table_reply,
    ds_table_submit,
};
use words::{DONE, IS_CLOSED, IS_OPEN};

/// Opens a store of this incarnation in a closed handle. Its first item gets the position `first`, and its journal keeps `ring` items, 1 to
/// 4096. Returns 0, the number of the refusal, or that the handle is open. Handles that know the same under a query hold the same.
#[unsafe(no_mangle)]
pub extern "C" fn ds_open(
    alloc: Global,
    handle: &mut Handle,
    incarnation: u64,
    first: u64,
    ring: u32,
) -> u32
    ensures opens { Opens incarnation first ring handle.old.value result handle.new.value }
    ensures agree { HandlesAgree }
{
    handles_agree();
    match handle.take(alloc) {
        None => open_in(alloc, handle, incarnation, first, ring),
        Some(session) => {
            handle.put(alloc, session);
            IS_OPEN
        }
    }
}

fn open_in(alloc: Global, handle: &mut Handle, incarnation: u64, first: u64, ring: u32) -> u32
    requires { handle.old.value ≡ None }
    ensures { Opened incarnation first ring result handle.new.value }
{
    match RsSession::open(alloc, incarnation, first, ring) {
        Ok(rs) => match Box::new(
            alloc,
            KeeperSession {
                rs,
                processes: None,
            },
        ) {
            Ok(session) => {
                handle.put(alloc, session);
                DONE
            }
            Err(_) => refusal_number(Refusal::NoRoom),
        },
        Err(cause) => refusal_number(cause),
    }
}

/// Carries out a request, whose text is in `texts`. The text of the answer is kept for `ds_items`.
#[unsafe(no_mangle)]
pub extern "C" fn ds_call(
    alloc: Global,
    handle: &mut Handle,
    request: &Request,
    texts: &[u8],
    answer: &mut Answer,
) -> u32
    ensures { Calls handle.old.value request.now texts.now answer.old result answer.new handle.new.value }
{
    match handle.take(alloc) {
        None => IS_CLOSED,
        Some(mut session) => {
            session.rs.call(alloc, request, texts, answer);
            handle.put(alloc, session);
            DONE
        }
    }
}

/// Copies the text of the last answer to `room`, from the piece at index `first` on: as many whole pieces as fit. `given` has their number,
/// their bytes, and why it stopped. The rest is kept for the next such call.
#[unsafe(no_mangle)]
pub extern "C" fn ds_items(
    alloc: Global,
    handle: &mut Handle,
    first: usize,
    room: &mut [u8],
    given: &mut Given,
) -> u32
    ensures text { Fetches handle.old.value first room.old given.old result room.new given.new }
    ensures handle { handle.new.value ≡ handle.old.value }
{
    match handle.take(alloc) {
        None => IS_CLOSED,
        Some(session) => {
            *given = session.rs.give(alloc, first, room);
            handle.put(alloc, session);
            DONE
        }
    }
}

/// Closes an open handle, and frees its memory.
#[unsafe(no_mangle)]
pub extern "C" fn ds_close(alloc: Global, handle: &mut Handle) -> u32
    ensures { Closes handle.old.value result handle.new.value }
{
    match handle.take(alloc) {
        None => IS_CLOSED,
        Some(session) => {
            drop(session);
            DONE
        }
    }
}
