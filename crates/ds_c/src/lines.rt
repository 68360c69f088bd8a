//! The calls with lines of a script.

ghost use Rattle.std.specs.Prelude.{◌≡◌};
ghost use Rattle.ds_c.specs.Calls.{CallsByLine, FetchesText};

use crate::handle::Handle;
use crate::words::{DONE, IS_CLOSED};
use c_values::{Answer, Given};
use std::alloc::Global;

/// Carries out the command on a line of a script. The text of the answer is kept for `ds_text` and `ds_items`.
#[unsafe(no_mangle)]
pub extern "C" fn ds_call_line(
    alloc: Global,
    handle: &mut Handle,
    line: &[u8],
    answer: &mut Answer,
) -> u32
    ensures { CallsByLine handle.old.value line.now answer.old result answer.new handle.new.value }
{
    match handle.take(alloc) {
        None => IS_CLOSED,
        Some(mut session) => {
            session.call_line(alloc, line, answer);
            handle.put(alloc, session);
            DONE
        }
    }
}

/// Copies the text of the last answer to `room`, as a script prints it, from the byte at `first` on: as many bytes as fit. `given` has
/// their number, the length of the whole text, and why it stopped. The rest is kept for the next such call.
#[unsafe(no_mangle)]
pub extern "C" fn ds_text(
    alloc: Global,
    handle: &mut Handle,
    first: usize,
    room: &mut [u8],
    given: &mut Given,
) -> u32
    ensures text { FetchesText handle.old.value first room.old given.old result room.new given.new }
    ensures handle { handle.new.value ≡ handle.old.value }
{
    match handle.take(alloc) {
        None => IS_CLOSED,
        Some(session) => {
            *given = session.rs.give_text(alloc, first, room);
            handle.put(alloc, session);
            DONE
        }
    }
}
