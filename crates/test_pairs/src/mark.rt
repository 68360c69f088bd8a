//! Digests of replies, and of lists of entries.

use ds_entry::{Change, Item, Items};
use ds_line::append_change;
use ds_machine::{Refusal, Reply};
use ds_store::Store;
use rs_answers::append_served;
use rs_core::{NewFault, RsFault};
use rs_store::{Replies, RsReply};
use script_answers::Wording;
use std::alloc::Global;
use test_kit::Kept;

// FNV-1a of 64 bits: the value at the beginning, and the factor of each byte (Fowler, Noll and Vo).
const BEGINNING: u64 = 0xcbf2_9ce4_8422_2325;

const FACTOR: u64 = 0x0100_0000_01b3;

/// Returns the digest of a reply: the hash of a script's lines for it, but for what is owed and for stamps, which other threads'
/// subscriptions change. The mask that is owed is beside it, with the stamps above its 64 lowest bits, which are those of this section's
/// subscriptions. `None` if memory runs out here, or for one of the store's replies to RS.
pub(crate) fn kept_of(alloc: Global, reply: &RsReply) -> Option<Kept> {
    match reply {
        RsReply::Replied(Reply::Refused(Refusal::NoRoom))
        | RsReply::Refused(RsFault::NoRoom)
        | RsReply::NotBegun(NewFault::NoRoom) => return Some(Kept::NoRoom),
        RsReply::Acted { replies, .. } if lacks_room(replies) => return None,
        _ => {}
    }
    let mut text = Vec::new(alloc);
    append_served(&mut text, Wording::AsMerge, reply).ok()?;
    let (mark, stamps) = match reply {
        RsReply::Replied(Reply::Subscribed { stamp, .. }) => (BEGINNING, *stamp),
        RsReply::Replied(
            Reply::Checked {
                items,
                before,
                after,
            },
        ) => (
            hash_first(&text, items.len()),
            before.wrapping_mul(FACTOR) ^ *after,
        ),
        _ => (hash_but_owed(&text), 0),
    };
    Some(Kept::Reply {
        mark,
        owed: reply.owed() ^ (u128::from(stamps) << 64),
    })
}

// Returns whether the store was out of memory for one of RS's changes.
fn lacks_room(replies: &Replies) -> bool {
    for reply in replies.as_slice() {
        if let Some(Reply::Refused(Refusal::NoRoom)) = reply {
            return true;
        }
    }
    false
}

// Returns the hash of the first `lines` lines.
fn hash_first(text: &[u8], lines: usize) -> u64 {
    let mut hash = BEGINNING;
    let mut left = lines;
    for byte in text {
        if left == 0 {
            return hash;
        }
        hash = (hash ^ u64::from(*byte)).wrapping_mul(FACTOR);
        if *byte == b'\n' {
            left = left.wrapping_sub(1);
        }
    }
    hash
}

// How the line of owed notices begins.
const OWED: [u8; 5] = *b"owed ";

// Returns the hash of all lines but those of owed notices.
fn hash_but_owed(text: &[u8]) -> u64 {
    let mut before = BEGINNING;
    let mut hash = BEGINNING;
    let mut at = 0;
    let mut is_owed = true;
    for byte in text {
        is_owed &= at >= 5 || *byte == OWED[at];
        if at < 5 {
            at += 1;
        }
        hash = (hash ^ u64::from(*byte)).wrapping_mul(FACTOR);
        if *byte == b'\n' {
            if is_owed {
                hash = before;
            }
            before = hash;
            at = 0;
            is_owed = true;
        }
    }
    hash
}

/// Returns the hash of the lines of a map's entries, or `None` if memory runs out.
pub(crate) fn mark_of_map(alloc: Global, entries: &Items) -> Option<u64> {
    let mut text = Vec::new(alloc);
    for index in 0..entries.len() {
        if let Some(Item::Change(change)) = entries.get(index) {
            append_change(&mut text, change).ok()?;
        }
    }
    Some(hash_on(BEGINNING, &text))
}

/// Returns the hash of the lines of the puts that a store holds, or `None` if memory runs out.
pub(crate) fn mark_of_store(alloc: Global, store: &Store) -> Option<u64> {
    let mut text = Vec::new(alloc);
    let held = store.held();
    for index in 0..held.len() {
        let change = held.at(index)?;
        if is_put(change) {
            append_change(&mut text, change).ok()?;
        }
    }
    Some(hash_on(BEGINNING, &text))
}

fn is_put(change: &Change) -> bool {
    change.body().value().is_some()
}

fn hash_on(begun: u64, text: &[u8]) -> u64 {
    let mut hash = begun;
    for byte in text {
        hash = (hash ^ u64::from(*byte)).wrapping_mul(FACTOR);
    }
    hash
}
