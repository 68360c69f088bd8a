//! Digests of a store's replies.

use ds_machine::{Refusal, Reply};
use std::alloc::Global;
use test_kit::Kept;

// FNV-1a of 64 bits: the value at the beginning, and the factor of each byte (Fowler, Noll and Vo).
const BEGINNING: u64 = 0xcbf2_9ce4_8422_2325;

const FACTOR: u64 = 0x0100_0000_01b3;

/// Returns the digest of a reply, with the hash of its whole text unless the reply is out of memory. `None` if memory runs out for the
/// text.
pub(crate) fn kept_of(alloc: Global, reply: &Reply) -> Option<Kept> {
    match reply {
        Reply::Refused(Refusal::NoRoom) => Some(Kept::NoRoom),
        Reply::MergeStopped {
            done,
            fault: Refusal::NoRoom,
            owed,
        } => Some(Kept::Stopped {
            items: *done,
            owed: *owed,
        }),
        _ => Some(Kept::Reply {
            mark: hash_of(alloc, reply)?,
            owed: reply.owed(),
        }),
    }
}

// Returns the hash of a reply's text, or `None` if memory runs out for the text.
fn hash_of(alloc: Global, reply: &Reply) -> Option<u64> {
    let text = format!(in alloc; "{reply:?}").ok()?;
    let mut hash = BEGINNING;
    for byte in text.as_str().as_bytes() {
        hash = (hash ^ u64::from(*byte)).wrapping_mul(FACTOR);
    }
    Some(hash)
}
