//! Copies of a reply's text, in pieces, to a caller's buffer.

ghost use Rattle.std.specs.Prelude.{◌≡◌, ◌+◌, ◌≤◌, ◌++◌, ◌∷◌, [], List, length, map, take, drop};
ghost use Rattle.ds_line.specs.ItemSpelling.{item_spelling};
ghost use Rattle.c_values.specs.Pieces.{value_pieces, pieces_of, GivesPieces};

use ds_entry::{Item, Value};
use ds_line::append_item;
use ds_machine::Reply;
use std::alloc::Global;

// Why copying stopped: the text ended, the next piece doesn't fit, or memory ran out for its line.
const WHOLE: u32 = 0;

const FULL: u32 = 1;

const NO_ROOM: u32 = 20;

/// The result of a copy: the number of whole pieces, their bytes, and why copying stopped. That is 0 if the text ended, 1 if the next piece
/// doesn't fit, and 20 if memory ran out for its line.
#[repr(C)]
#[derive(Clone, Copy)]
pub struct Given {
    pub count: u64,
    pub length: u64,
    pub stop: u32,
}

/// Returns the number of pieces of a reply's text: one for a name, a text or a blob, and one for each item.
pub(crate) fn pieces(reply: &Reply) -> usize
    ensures { result ≡ length (pieces_of reply.now) }
{
    match reply {
        Reply::Found(Value::Str(_) | Value::Mem(_)) | Reply::Named(_) => 1,
        Reply::Checked { items, .. } => items.len(),
        Reply::Journaled(since) => since.items.len(),
        Reply::Snapped(snapshot) => snapshot.items.len(),
        Reply::Paged(page) => page.items.len(),
        _ => 0,
    }
}

// Copies bytes to a buffer, from an index on.
fn put(room: &mut [u8], at: usize, bytes: &[u8])
    requires { at + length bytes.now ≤ length room.old }
    ensures { room.new ≡ take at room.old ++ (bytes.now ++ drop (at + length bytes.now) room.old) }
{
    room[at..at + bytes.len()].copy_from_slice(bytes);
}

impl Given {
    /// Returns the result of a copy that found the text at its end: no pieces.
    pub fn nothing() -> Given
        ensures { result ≡ record { count = 0; length = 0; stop = 0 } }
    {
        Given {
            count: 0,
            length: 0,
            stop: WHOLE,
        }
    }
}

// Copies a text of one piece, unless `first` is past it.
fn give_text(text: &[u8], first: usize, room: &mut [u8]) -> Given
    ensures { GivesPieces (drop first (text.now ∷ [])) room.old result room.new }
{
    if first > 0 {
        return Given::nothing();
    }
    if room.len() < text.len() {
        return Given {
            stop: FULL,
            ..Given::nothing()
        };
    }
    put(room, 0, text);
    Given {
        count: 1,
        length: text.len() as u64,
        stop: WHOLE,
    }
}

// Copies the lines of items to a buffer, as many whole ones as fit.
fn give_lines(alloc: Global, items: &[Item], room: &mut [u8]) -> Given
    ensures { GivesPieces (map item_spelling items.now) room.old result room.new }
{
    let mut line = Vec::new(alloc);
    let mut taken = 0;
    for (count, item) in items.iter().enumerate() {
        line.clear();
        let Ok(()) = append_item(&mut line, item) else {
            return Given {
                count: count as u64,
                length: taken as u64,
                stop: NO_ROOM,
            };
        };
        let bytes = line.as_slice();
        if room.len() - taken < bytes.len() {
            return Given {
                count: count as u64,
                length: taken as u64,
                stop: FULL,
            };
        }
        put(room, taken, bytes);
        taken += bytes.len();
    }
    Given {
        count: items.len() as u64,
        length: taken as u64,
        stop: WHOLE,
    }
}

/// Copies the lines of items to a buffer, from the item at index `first` on, as many whole ones as fit.
pub fn give_items(alloc: Global, items: &[Item], first: usize, room: &mut [u8]) -> Given
    ensures { GivesPieces (drop first (map item_spelling items.now)) room.old result room.new }
{
    if items.len() < first {
        return Given::nothing();
    }
    give_lines(alloc, &items[first..], room)
}

/// Copies the text of a reply to a buffer, from the piece at index `first` on, as many whole pieces as fit. The rest of the buffer is
/// unchanged. The line of an item takes memory while it is copied.
pub fn give(alloc: Global, reply: &Reply, first: usize, room: &mut [u8]) -> Given
    ensures { GivesPieces (drop first (pieces_of reply.now)) room.old result room.new }
{
    match reply {
        Reply::Found(Value::Str(text)) => give_text(text.bytes(), first, room),
        Reply::Found(Value::Mem(blob)) => give_text(blob.bytes(), first, room),
        Reply::Named(name) => give_text(name.bytes(), first, room),
        Reply::Checked { items, .. } => give_items(alloc, items.as_slice(), first, room),
        Reply::Journaled(since) => give_items(alloc, since.items.as_slice(), first, room),
        Reply::Snapped(snapshot) => give_items(alloc, snapshot.items.as_slice(), first, room),
        Reply::Paged(page) => give_items(alloc, page.items.as_slice(), first, room),
        _ => Given::nothing(),
    }
}
