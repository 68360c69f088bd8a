//! Why a call of a bridge is refused.

use thiserror::Error;

/// Why a call is refused. Then nothing changed, neither the store nor the bridge.
#[derive(Clone, Copy, Debug, PartialEq, Eq, Error)]
pub enum BridgeFault {
    /// A question, or a reading, is under way.
    #[error("a question is under way")]
    Busy,
    /// Nothing is under way that this answers.
    #[error("nothing was asked")]
    NotUnderWay,
    /// Items took effect in the store that weren't gathered.
    #[error("the store has news")]
    Ungathered,
    /// More was gathered than the store's journal ever had.
    #[error("the store is another one")]
    Ahead,
    /// The entry's id isn't greater than that of the last one.
    #[error("the ids of entries don't grow")]
    BadId,
    /// The text isn't items, one line each.
    #[error("the text isn't lines of items")]
    BadLines,
    /// Memory ran out.
    #[error("out of memory")]
    NoRoom,
}
