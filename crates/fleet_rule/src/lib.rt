//! Hosts that keep their stores in step over one server's log: definitions of what happens, and laws of every list of events.
//!
//! A fleet is one server and any number of hosts, each with a store, a bridge and two connections. The bridge's outbox has the store's own
//! changes until the server acknowledges them; its consumer merges the log's items into the store. All of it is this project's own.
#![tactic(auto)]

mod digests;
mod guards;
mod laws;

pub use digests::digests_follow;
pub use guards::{
    compaction_guards_are_needed, known_guards_are_needed, meeting_guards_are_needed,
    premises_are_needed, reading_guards_are_needed, sending_guards_are_needed,
};
pub use laws::{changes_come, items_are_kept};
