//! A world that runs: two stores that exchange what they know, subscribers' maps, and the messages between them.
//!
//! Replicas, messages and the join of knowledge are of this project. MINIX 3's data store is one server (Tanenbaum and
//! Woodhull, third edition), which its subscribers query again (Herder and others, DSN 2007).
#![tactic(auto)]

mod events;
mod fault;
mod outcomes;
mod parts;
mod replies;
mod tally;
mod world;

pub use events::Events;
pub use fault::{SeedFault, WorldFault};
pub use outcomes::Outcomes;
pub use world::World;
