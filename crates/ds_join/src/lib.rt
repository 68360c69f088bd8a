//! The top of a set of items, the joins of such tops with their laws, and the answers of a merge.
//!
//! The top is what is held of a set: of each owner the greatest floor, and of each key the greatest version that no
//! floor voids. Merging is a join, so the result depends neither on the order in which items arrive nor on repeats.
//! MINIX 3's data store overwrites in order of arrival. Versions, tombstones, floors and replicas that converge are this
//! project's.
#![tactic(auto)]

mod count;
mod laws;
mod merge;

pub use count::Count;
pub use laws::{item_join_laws, item_top_laws};
pub use merge::{JoinFault, Merge, Stop};
