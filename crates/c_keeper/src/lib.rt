//! RS beside a store, and the processes of its services, for C: the machine of `node_supervisor` in a session, by structs and numbers.
//!
//! RS is MINIX 3's reincarnation server. The rest is of this project.
#![tactic(auto)]

mod barred;
mod counted;
mod events;
mod inputs;
mod law;
mod noting;
mod reading;
mod renewing;
mod session;
mod task;
mod words;

pub use law::calls_are_moves;
pub use session::KeeperSession;
pub use task::KeeperTask;
