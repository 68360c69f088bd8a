//! Digests of lists of entries.

use ds_entry::{Change, Item, Items};
use ds_line::append_change;
use ds_store::Store;
use std::alloc::Global;

// FNV-1a of 64 bits: the value at the beginning, and the factor of each byte (Fowler, Noll and Vo).
const BEGINNING: u64 = 0xcbf2_9ce4_8422_2325;

const FACTOR: u64 = 0x0100_0000_01b3;

/// Returns the hash of the lines of a map's entries, or `None` if memory runs out.
pub(crate) fn mark_of_map(alloc: Global, entries: &Items) -> Option<u64> {
    let mut text = Vec::new(alloc);
    for index in 0..entries.len() {
        if let Some(Item::Change(change)) = entries.get(index) {
            append_change(&mut text, change).ok()?;
        }
    }
    Some(hash_of(&text))
}

/// Returns the hash of the lines of the puts that a store holds, or `None` if memory runs out.
pub(crate) fn mark_of_store(alloc: Global, store: &Store) -> Option<u64> {
    let mut text = Vec::new(alloc);
    let held = store.held();
    for index in 0..held.len() {
        let change = held.at(index)?;
        if is_put(change) {
            append_change(&mut text, change).ok()?;
        }
    }
    Some(hash_of(&text))
}

fn is_put(change: &Change) -> bool {
    change.body().value().is_some()
}

fn hash_of(text: &[u8]) -> u64 {
    let mut hash = BEGINNING;
    for byte in text {
        hash = (hash ^ u64::from(*byte)).wrapping_mul(FACTOR);
    }
    hash
}
