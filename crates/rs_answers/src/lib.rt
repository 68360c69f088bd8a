//! The lines that answer RS and its store, as in a script.
#![tactic(auto)]

mod served;

pub use served::append_served;
