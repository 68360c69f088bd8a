//! The error of a failed allocation.

use std::alloc::{AllocError, AllocFailed};
use thiserror::Error;

/// The error when an allocation fails. All crates of this project use this one type.
#[derive(Clone, Copy, Debug, PartialEq, Eq, Error)]
#[error("out of memory")]
pub struct NoRoom;

impl From<AllocError> for NoRoom {
    fn from(_refused: AllocError) -> NoRoom {
        NoRoom
    }
}

impl<T: Drop> From<AllocFailed<T>> for NoRoom {
    fn from(_refused: AllocFailed<T>) -> NoRoom {
        NoRoom
    }
}
