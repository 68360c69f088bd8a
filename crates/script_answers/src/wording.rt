//! The wording of the reply to a Merge.

/// The wording of the reply to a Merge: an offer's by the outcome of its one item, any other's by its counts.
#[derive(Clone, Copy, PartialEq, Eq)]
pub enum Wording {
    /// `taken`, `stale` or `known`, or `refused WORD`.
    AsOffer,
    /// `merged DONE TAKEN STALE`, or `stopped DONE WORD`.
    AsMerge,
}
