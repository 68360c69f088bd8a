//! Why a supervisor refuses a call.

use rs_core::{RenewFault, RsFault};
use thiserror::Error;

/// Why RS isn't told an event, in the order of judgement.
#[derive(Clone, Copy, Debug, PartialEq, Eq, Error)]
pub enum SupervisorFault {
    /// The label has no instance that is up and whose leader exited.
    #[error("no instance of the label died")]
    NotDead,
    /// RS refuses the event.
    #[error("{0}")]
    Refused(RsFault),
    /// The event starts an instance, and its generation isn't on disk.
    #[error("the next generation isn't on disk")]
    Unwritten,
}

/// Why a supervisor doesn't take other settings, in the order of judgement, except that RS reports NoRoom last.
#[derive(Clone, Copy, Debug, PartialEq, Eq, Error)]
pub enum RenewalFault {
    /// RS refuses the settings.
    #[error("{0}")]
    Refused(RenewFault),
    /// The settings in force have the service with this number, the new ones lack it, and the service has processes or a pending start, or
    /// may have a process of an earlier run.
    #[error("a service that is left out is still busy")]
    StillBusy(usize),
}
