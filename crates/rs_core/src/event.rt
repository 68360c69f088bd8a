//! Events.

use ds_names::{Endpoint, Name};

/// What an administrator asks of RS, or what RS is notified of.
///
/// `Up`, `Stop`, `Refresh` and `Restart` are what MINIX 3's `service` command requests for a label (`up`, `down`,
/// `refresh`, `restart`).
#[derive(Clone, Copy)]
pub enum Event {
    /// Start the service.
    Up(Name),
    /// Stop the service.
    Stop(Name),
    /// Stop the service and start it again at once.
    Refresh(Name),
    /// Start a service that waits or was given up.
    Restart(Name),
    /// An instance died. The numbers of causes are this project's own: 1 exit or panic, 2 CPU or MMU exception, 3 killed
    /// by a user, 4 missing heartbeat, 5 complaint by another component, 6 dynamic update.
    Death(Endpoint, u64),
    /// An instance reports that it is alive.
    Beat(Endpoint),
    /// Time passed. Repeat it with the same tick until it returns no actions.
    Tick,
}
