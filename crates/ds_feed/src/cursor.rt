//! Cursors.

/// A place between two items that took effect in one incarnation of a store. Items before it have lower positions.
#[derive(Clone, Copy, Debug, PartialEq, Eq)]
pub struct Cursor {
    /// The incarnation: the number of one run of the store.
    pub incarnation: u64,
    /// The position of the next item, 0 to 2^62.
    pub position: u64,
}
