//! A supervisor's decisions: RS says which instances run, and the processes of each label follow.
//!
//! RS decides which service runs, `process_keeper` what is to be done about its processes. This crate is both as one machine, without
//! I/O. All is this project's own.
#![tactic(auto)]

mod fault;
mod following;
mod instances;
mod laws;
mod renewing;
mod supervisor;
mod telling;

pub use fault::{RenewalFault, SupervisorFault};
pub use following::{endpoint_at, follow, is_note};
pub use instances::{dead_instance, pending_instance};
pub use laws::{leaders_stay, supervisors_agree};
pub use renewing::renewed_keeper;
pub use supervisor::Supervisor;
pub use telling::{count_start, is_held};
