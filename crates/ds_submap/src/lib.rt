//! What a subscriber keeps of the data store: a query, and the changes and floors under it.
//!
//! In MINIX 3 the subscribers of the data store (DS) learn from it which driver a label names now; the network server
//! and the file server are such subscribers (Herder and others, DSN 2007). Maps of their own, which the changes of
//! any replica may reach in any order, are of this project.
#![tactic(auto)]

mod map;
mod take;

pub use map::SubMap;
