//! The part of a store's state that a change or a floor is judged by.

use ds_entry::Change;
use ds_names::Generation;

/// The part of a store's state that a change is judged by.
#[derive(Clone, Copy)]
pub struct Standing<'a> {
    /// The change that is held under the change's key, if any.
    pub held: Option<&'a Change>,
    /// Whether a held floor makes the change void.
    pub void: bool,
    /// The number of keys that are held.
    pub count: usize,
    /// The number of keys that may be held.
    pub most: usize,
    /// The position of the next item.
    pub position: u64,
}

/// The part of a store's state that a floor is judged by.
#[derive(Clone, Copy)]
pub struct FloorStanding {
    /// The generation of the held floor of the floor's owner, if any.
    pub held: Option<Generation>,
    /// The number of floors that are held.
    pub count: usize,
    /// The position of the next item.
    pub position: u64,
}
