//! The text of the last answer, as a script prints it.

ghost use Rattle.std.specs.Prelude.{◌≡◌, ◌≢◌, ◌≤◌, IfOk, OnErr, [], drop, length};
ghost use Rattle.c_store.specs.Text.{given_text, shown_text, GivesPart, GivesText};

use crate::last::Last;
use crate::session::Session;
use c_values::Given;
use ds_entry::Items;
use ds_held::Limits;
use ds_line::{append_item, append_numbers};
use ds_names::NoRoom;
use script_answers::write_reply;
use std::alloc::Global;

// Why copying stopped: the text ended, the buffer is full, or memory ran out for the text.
const WHOLE: u32 = 0;

const FULL: u32 = 1;

const NO_ROOM: u32 = 20;

/// Copies the text of a session's last answer, as a script prints it, from the byte `first` on. Copies as many bytes as fit in the buffer.
///
/// Returns the number of these bytes, and the length of the whole text. Until the next request, a later call can copy the rest. The call
/// takes memory for the text, if there is one. If it runs out, nothing is copied, and a later call may succeed.
pub fn give_text(alloc: Global, session: &Session, first: usize, room: &mut [u8]) -> Given
    ensures { GivesText (given_text session.now.last) first room.old result room.new }
{
    match write_text(alloc, session.last()) {
        Ok(text) => give_part(text.as_slice(), first, room),
        Err(NoRoom) => no_text(),
    }
}

/// Returns the result of a copy for which memory ran out: no bytes.
pub fn no_text() -> Given
    ensures { result ≡ record { count = 0; length = 0; stop = 20 } }
{
    Given {
        stop: NO_ROOM,
        ..Given::nothing()
    }
}

/// Copies a text from the byte `first` on. Copies as many bytes as fit in the buffer.
pub fn give_part(text: &[u8], first: usize, room: &mut [u8]) -> Given
    ensures { GivesPart text.now first room.old result room.new }
{
    let rest = past(text, first);
    let count = text.len() as u64;
    if room.len() < rest.len() {
        let length = room.len();
        room.copy_from_slice(&rest[..length]);
        return Given {
            count,
            length: length as u64,
            stop: FULL,
        };
    }
    room[..rest.len()].copy_from_slice(rest);
    Given {
        count,
        length: rest.len() as u64,
        stop: WHOLE,
    }
}

// Returns the text after its first bytes.
fn past(text: &[u8], first: usize) -> &[u8]
    ensures { result.now ≡ drop first text.now }
{
    if first < text.len() {
        &text[first..]
    } else {
        &[]
    }
}

// Returns the text of an answer, as a script prints it. It takes memory for a text, and fails only if that runs out.
#[tactic(auto, using(crate::proofs::TextLemmas::reply_has_lines, crate::proofs::TextLemmas::show_has_lines))]
fn write_text(alloc: Global, last: &Last) -> Result<Vec<u8>, NoRoom>
    ensures text { IfOk result (λ text. text.items ≡ given_text last.now) }
    ensures room { OnErr result (given_text last.now ≢ []) }
{
    match last {
        Last::Nothing => Ok(Vec::new(alloc)),
        Last::Reply { reply, wording } => write_reply(alloc, *wording, reply, Limits::larger()),
        Last::Shown(items) => write_shown(alloc, items),
    }
}

// Returns the lines of shown items, and then the line with their number. Fails only if memory runs out.
fn write_shown(alloc: Global, items: &Items) -> Result<Vec<u8>, NoRoom>
    ensures { IfOk result (λ text. text.items ≡ shown_text items.now) }
{
    let mut text = Vec::new(alloc);
    for item in items.as_slice() {
        append_item(&mut text, item)?;
    }
    append_numbers(&mut text, &[(b"shown ", items.len() as u64)])?;
    Ok(text)
}
