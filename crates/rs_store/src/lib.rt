//! RS and its store as one machine. A command is a client's command to the store, the settings with which RS begins, or
//! an event for RS. The label changes and sweeps that RS decides on reach the store in the same turn.
//!
//! In MINIX 3 the reincarnation server (RS) publishes the endpoint of each driver that it starts in the data store
//! (Herder and others, DSN 2007). Making one machine of both, which a desk of threads or a handle for C holds, is of
//! this project.
#![tactic(auto)]

mod by_rs;
mod call;
mod machine;
mod pair;
mod renewing;
mod replies;
mod serving;
mod threads;

pub use by_rs::is_by_rs;
pub use call::{RsCommand, RsReply};
pub use machine::pairs_take_turns;
pub use pair::RsStore;
pub use replies::Replies;
pub use threads::pairs_cross_threads;
