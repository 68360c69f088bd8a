//! What happened to a label's processes.

use crate::scan::Scan;

/// What RS asked for, what the supervisor did, or what it saw. Times are in milliseconds.
#[derive(Clone, Copy, Drop)]
pub enum Input {
    /// RS starts an instance, with this generation. The start is pending until the leader is forked.
    Started(u64),
    /// RS takes a pending start back.
    Cancelled,
    /// RS stops the instance. What is left of it at this time is killed.
    Stopped(u64),
    /// RS brings the deadline of a stopped instance forward to this time.
    Shortened(u64),
    /// The leader of the pending start was forked. It has this process number.
    Begun(u64),
    /// The leader couldn't be forked at this time, for lack of a process, a socket or a descriptor.
    Failed(u64),
    /// The leader exited. It isn't reaped yet.
    Exited,
    /// A scan may find something else: a process exited, or time passed.
    Changed,
    /// SIGTERM, and then SIGCONT, was sent to the process group.
    Asked,
    /// SIGKILL was sent to all processes that were found of the instance.
    Killed,
    /// A scan of the label found this.
    Scanned(Scan),
    /// RS was informed, at this time, that the instance died.
    Reported(u64),
    /// The leader was reaped.
    Reaped,
    /// A scan found no process of an earlier run.
    Cleared,
}
