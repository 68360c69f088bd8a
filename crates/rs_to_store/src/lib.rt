//! Services and driver tables as clients of a store: the commands of RS's actions, and how a driver table follows a map
//! that receives a store's labels. This crate knows no world: the caller sends the commands to its stores, and lends
//! its maps.
//!
//! In MINIX 3 the reincarnation server (RS) publishes the endpoint of each driver that it starts in the data store.
//! File and network servers subscribe to these labels, learn of a restarted driver from them, and reintegrate it
//! (Herder and others, DSN 2007). Tombstones, floors and maps are of this project.
#![tactic(auto)]

mod asked;
mod following;
mod laws;
mod news;
mod submitting;

pub use asked::{asking, command_of};
pub use following::follow;
pub use laws::follows_keep_tables;
pub use submitting::follow_and_submit;
