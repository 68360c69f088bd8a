//! The judge of a store's commands: it returns the first cause that applies to a command, in the one order, or none. It
//! is pure: the store passes what it holds for the key or the owner, what its limits leave, and its position.
//!
//! From MINIX 3's data store (DS; Herder and others, DSN 2007): each entry has an owner, only RS publishes labels, and
//! a live entry is overwritten only with the overwrite flag. Of this project: versions, floors, cursors and the order
//! of causes.
//!
//! The store that the programs run: it judges each command, and applies its effect to what it keeps. Each call of
//! `apply` is one step of the store's machine.
//!
//! From MINIX 3's data store (DS; Herder and others, DSN 2007): publish, delete, retrieve, name, subscribe and check;
//! each entry has an owner, only RS publishes labels, and a live entry is overwritten only with the overwrite flag. Of
//! this project: versions, tombstones, floors, the journal, snapshots, pages and merges.
#![tactic(auto)]

mod answer;
mod asked;
mod change;
mod check;
mod floor;
mod laws;
mod machine;
mod reading;
mod runs;
mod scope;
mod standing;
mod store;
mod subscribe;
mod threads;

pub use laws::{outcomes_have_room, scopes_may_lack_room, want_of_room_is_no_cause};
pub use machine::stores_take_turns;
pub use runs::run;
pub use store::Store;
pub use threads::stores_cross_threads;
