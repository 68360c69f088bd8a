//! What is held, with a mark of the caller's beside each change and each floor.
//!
//! A mark arrives with a change or a floor that is taken, and is dropped with it; it can also be changed alone. Marks
//! are kept in lists of their own, beside what a [`Held`](ds_held::Held) holds.
//!
//! What is held, with marks beside it, and the names of endpoints.
//!
//! MINIX 3's data store (DS) finds the label of an endpoint by looking through all its entries. Here labels are kept
//! in an index by endpoint, so one search finds it.
#![tactic(auto)]

mod begins;
mod index;
mod indexed;
mod marked;
mod named;

pub use indexed::Indexed;
pub use marked::Marked;
