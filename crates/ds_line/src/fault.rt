//! Why a line can't be read.

use thiserror::Error;

/// Why bytes don't begin with a change's line that can be read.
#[derive(Clone, Copy, Debug, PartialEq, Eq, Error)]
pub enum LineFault {
    /// The bytes don't begin with a change's line. The first part that can't be read begins at the byte `place`, from 0.
    #[error("the line can't be read from byte {place} on")]
    BadLine { place: usize },
    /// Out of memory.
    #[error("out of memory")]
    NoRoom,
}
