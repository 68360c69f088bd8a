//! Numbers that bound every store, whatever its own limits are. All are this project's.

/// The greatest generation.
pub const LAST_GENERATION: u32 = 2097151;

/// The most items of a Merge, a Check, a Since or a Page.
pub const MOST_ITEMS: usize = 256;

/// The most floors that a store holds.
pub const MOST_FLOORS: usize = 64;

/// The greatest sequence number. No caller uses it.
pub const LAST_SEQ: u32 = u32::MAX;

/// The greatest position, and the greatest stamp.
pub const LAST_PLACE: u64 = 1 << 62;

/// The most items that the ring of a journal keeps.
pub const LARGEST_RING: u32 = 4096;
