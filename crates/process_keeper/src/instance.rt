//! An instance whose leader was forked.

/// An instance whose leader isn't reaped.
#[derive(Clone, Copy, Drop)]
pub struct Instance {
    pub generation: u64,
    /// The process number of the leader, which is also the number of its process group.
    pub leader: u64,
    /// When SIGKILL may be sent to what is left of it. `None` while it is up.
    pub deadline: Option<u64>,
}
