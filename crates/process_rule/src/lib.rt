//! The life of processes under a supervisor that may itself be killed: a model of the kernel, the supervisor's events, and their laws.
//!
//! The model is this project's own. Process numbers, groups, sessions and SIGKILL are POSIX's.
#![tactic(auto)]

mod laws;

pub use laws::{guards_are_needed, nothing_stays, numbers_come_again, processes_are_kept};
