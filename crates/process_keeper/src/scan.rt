//! What a scan finds.

/// The processes of an instance that a scan found, besides its leader if that has exited.
#[derive(Clone, Copy, Drop)]
pub enum Scan {
    /// None.
    Nothing,
    /// Only processes to which SIGKILL was sent.
    Dying,
    /// Others, too.
    Living,
}
