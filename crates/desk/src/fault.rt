//! The refusals of a desk.

use thiserror::Error;

/// Why a call was refused.
#[derive(Clone, Copy, Debug, PartialEq, Eq, Error)]
pub enum DeskFault {
    /// The count of passes isn't 1 to 64.
    #[error("not 1 to 64 passes")]
    BadCount,
    /// The first place is above 2^62.
    #[error("the first place is above 2^62")]
    BadFirst,
    /// The server isn't below 16.
    #[error("no such server")]
    BadServer,
    /// No place below 2^62 is left, or the pass has made or learnt 2^62 notes.
    #[error("worn out")]
    Worn,
    /// Not all passes were handed over.
    #[error("a pass is out")]
    PassesOut,
    /// The passes made and learnt different numbers of notes in all.
    #[error("a note is out")]
    Noted,
    /// Out of memory.
    #[error("out of memory")]
    NoRoom,
}

/// The error for a note that wasn't learnt. It hands the note back.
#[derive(Drop)]
pub struct LearnStop<N> {
    /// The cause.
    pub fault: DeskFault,
    /// The note.
    pub note: N,
}
