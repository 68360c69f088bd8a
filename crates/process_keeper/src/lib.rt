//! The decisions of a supervisor about its processes, by the rule of `process_rule`: no I/O, no clock.
//!
//! A caller carries tasks out: it forks, signals, scans and reaps. Inputs say what RS asked for, what was done, and what was seen.
//! All is this project's own.
#![tactic(auto)]

mod accepting;
mod fault;
mod following;
mod generations;
mod input;
mod instance;
mod keeper;
mod laws;
mod lifecycle;
mod order;
mod reading;
mod renewing;
mod scan;
mod taking;
mod task;
mod tasks;
#[cfg(test)]
mod tests;
mod waking;

pub use fault::KeeperFault;
pub use input::Input;
pub use keeper::Keeper;
pub use laws::{following_is_inputs, idle_labels_may_be_left_out, inputs_are_events, truth_stays};
pub use scan::Scan;
pub use task::Task;
