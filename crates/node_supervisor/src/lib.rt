//! RS beside its store, and the processes of its services.
//!
//! A `Supervisor` of the crate `supervisor` holds RS alone. Here RS is beside its store, which takes RS's label changes and sweeps in the
//! same call. RS's part and the labels' are that supervisor's. All is this project's own.
#![tactic(auto)]

mod counting;
mod following;
mod laws;
mod processes;
mod renewing;
mod telling;

pub use counting::count_of;
pub use laws::nodes_are_supervisors;
pub use processes::Processes;
