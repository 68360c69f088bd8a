//! One label's processes.

ghost use Rattle.std.specs.Prelude.{◌≡◌};
ghost use Rattle.process_keeper.specs.Renewal.{new_lifecycle};

use crate::instance::Instance;

pub(crate) const FIRST_PAUSE: u64 = 100;

/// The processes of one label: an instance, a pending start, and what was seen of them.
#[derive(Clone, Copy, Drop)]
pub struct Lifecycle {
    pub(crate) instance: Option<Instance>,
    /// The generation of a start whose leader isn't forked yet.
    pub(crate) pending: Option<u64>,
    /// A scan found no process of an earlier run.
    pub(crate) is_clean: bool,
    /// The leader was seen to have exited.
    pub(crate) has_exited: bool,
    /// SIGTERM was sent to the group, or needn't be: the instance died by itself.
    pub(crate) is_asked: bool,
    /// SIGKILL was sent to all processes that were found.
    pub(crate) is_killed: bool,
    /// The last scan found nothing but the leader, which had exited.
    pub(crate) is_empty: bool,
    /// Nothing happened since the last scan.
    pub(crate) is_scanned: bool,
    /// The earliest time of the next attempt to fork, in milliseconds.
    pub(crate) retry_at: u64,
    /// How long after a failed attempt the next one is made, in milliseconds.
    pub(crate) pause: u64,
}

impl Lifecycle {
    // Returns the processes of a label at the beginning of a run: an earlier run may have left some.
    pub(crate) fn new() -> Lifecycle
        ensures { result ≡ new_lifecycle }
    {
        Lifecycle {
            instance: None,
            pending: None,
            is_clean: false,
            has_exited: false,
            is_asked: false,
            is_killed: false,
            is_empty: false,
            is_scanned: false,
            retry_at: 0,
            pause: FIRST_PAUSE,
        }
    }
}
