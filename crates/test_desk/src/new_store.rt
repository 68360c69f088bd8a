//! New stores for desks.

use ds_store::Store;
use std::alloc::Global;

/// The incarnation of a new store.
pub(crate) const INCARNATION: u64 = 1;

/// The position of a new store that is compared or overwritten.
pub(crate) const FIRST: u64 = 1 << 32;

// The number of items that a store's journal keeps.
const RING: u32 = 256;

/// Returns an empty store that begins at a position, or `None` if memory runs out. The store is on the heap, since each turn takes the
/// machine out of the desk's slot and puts it back.
pub(crate) fn store_at(alloc: Global, position: u64) -> Option<Box<Store>> {
    let store = Store::open(alloc, INCARNATION, position, RING).ok()?;
    Box::new(alloc, store).ok()
}
