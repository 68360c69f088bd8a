//! What a bridge's store does, in terms of `fleet_rule`: items that were read are joined, what takes effect is a change, and is in the
//! journal.
//!
//! Dead letters are a second holder for items that the store refuses. All of it is this project's own.
#![tactic(auto)]

mod journal;
mod laws;
mod taking;

pub use journal::news_since;
pub use laws::{news_are_changes, taken_items_join};
pub use taking::{Taken, take};
