//! What a world's stores are opened with.

/// What a store is opened with. Not part of MINIX 3.
#[derive(Clone, Copy, PartialEq, Eq)]
pub struct Seed {
    /// The number of this run of the store.
    pub incarnation: u64,
    /// The position of the first item that takes effect, 0 to 2^62.
    pub first: u64,
    /// How many of the last items the journal keeps, 1 to 4096.
    pub ring: u32,
}
