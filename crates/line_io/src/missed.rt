//! The error of a call of a reader or a writer.

/// Why a read returned nothing, or a write took nothing.
#[derive(Clone, Copy, PartialEq, Eq)]
pub enum Missed {
    /// A signal interrupted the call. The next one may succeed.
    Interrupted,
    /// The call failed.
    Failed,
}
