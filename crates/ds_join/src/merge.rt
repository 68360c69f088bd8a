//! The answers of a merge and of a join.

use ds_names::Version;
use thiserror::Error;

/// The outcome of a change or a floor that wasn't refused.
#[derive(Clone, Copy, PartialEq, Eq)]
pub enum Merge {
    /// The item is held now. Before, nothing or a smaller version of the change's key was held, or no floor or a lower one
    /// of the floor's owner.
    Taken,
    /// The item was held already. Nothing changed.
    Known,
    /// Something greater is held: a greater version of the change's key, a floor that voids the change, or a higher floor
    /// of the floor's owner. Nothing changed.
    Stale,
}

/// Why a change or a floor was refused. The causes are judged in this order, and a refusal changes nothing. A floor is
/// refused only as `Full` or `NoRoom`.
#[derive(Clone, Copy, Debug, PartialEq, Eq, Error)]
pub enum JoinFault {
    /// The change that is held under the key has another owner.
    #[error("the key has another owner")]
    NotOwner,
    /// The change that is held under the key has the same version and another body.
    #[error("the key has another change of the same version")]
    Clash { version: Version },
    /// No more can be held: the change's key isn't held, and 4096 or 1024 others are, by the limits; or the floor's owner
    /// has no floor, and 64 others have one.
    #[error("no more keys or floors can be held")]
    Full,
    /// Out of memory. Only three cases take memory: a change whose key isn't held, a floor whose owner has none, and a
    /// borrowed change that would be taken and must be copied.
    #[error("out of memory")]
    NoRoom,
}

/// The error of a join that stopped: `done` of the other's items were merged, and the next one was refused. Floors come
/// first, in the order of their owners' names, then changes in the order of their keys.
#[derive(Clone, Copy, Debug, PartialEq, Eq, Error)]
#[error("stopped after {done} items: {fault}")]
pub struct Stop {
    pub done: usize,
    pub fault: JoinFault,
}
