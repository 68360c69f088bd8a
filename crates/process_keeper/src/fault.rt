//! Why a keeper's labels can't be others.

use thiserror::Error;

/// Why a keeper takes no other labels, in the order of judgement.
#[derive(Clone, Copy, Debug, PartialEq, Eq, Error)]
pub enum KeeperFault {
    /// The label with this number is left out, and it has a process, may have one of an earlier run, or has a pending start.
    #[error("a label that is left out is still busy")]
    StillBusy(usize),
    /// The labels can't be allocated.
    #[error("out of memory")]
    NoRoom,
}
