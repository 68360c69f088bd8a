//! A bridge beside a store, for C: what it asks its server, what it reads, and what becomes of the answers, by numbers and lines.
//!
//! Calls are events of `fleet_rule`, on the store, its dead letters and the decisions of `fleet_bridge` together. All of it is this
//! project's own.
#![tactic(auto)]

mod adding;
mod asking;
mod bridge;
mod fault;
mod gathering;
mod laws;
mod meeting;
mod reading;
mod snapshots;
mod texts;

pub use bridge::{StoreBridge, UnderRead};
pub use fault::BridgeFault;
pub use laws::calls_happen;
