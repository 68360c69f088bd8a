//! Failures that end the program for tests.

use ds_names::NoRoom;
use std::alloc::{AllocError, AllocFailed};
use std::io;

/// Why the program for tests ended before everything was answered.
#[derive(Clone, Copy, PartialEq, Eq)]
pub enum Failure {
    /// A line that can't be read.
    BadLine,
    /// A call's answer was wrong.
    Unexpected,
    /// Out of memory.
    NoRoom,
    /// Reading failed.
    ReadFault,
    /// Writing failed.
    WriteFault,
    /// A pass can't make or learn more notes.
    Worn,
}

impl Failure {
    /// Returns the word for standard error; `None` if the program ends with status 1.
    pub fn word(self) -> Option<&'static str> {
        match self {
            Failure::BadLine | Failure::Unexpected => None,
            Failure::NoRoom => Some("noroom"),
            Failure::ReadFault => Some("readfault"),
            Failure::WriteFault => Some("writefault"),
            Failure::Worn => Some("worn"),
        }
    }
}

impl From<NoRoom> for Failure {
    fn from(_: NoRoom) -> Failure {
        Failure::NoRoom
    }
}

impl From<AllocError> for Failure {
    fn from(_: AllocError) -> Failure {
        Failure::NoRoom
    }
}

impl<T: Drop> From<AllocFailed<T>> for Failure {
    fn from(_: AllocFailed<T>) -> Failure {
        Failure::NoRoom
    }
}

impl From<io::Error> for Failure {
    // A write failed: only the program itself reads the input.
    fn from(_: io::Error) -> Failure {
        Failure::WriteFault
    }
}
