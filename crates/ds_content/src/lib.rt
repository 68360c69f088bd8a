//! What a store keeps: what it holds, the journal, and what is still to be shown to each subscription. Each effect
//! leads from one state of the store's machine to another.
//!
//! MINIX 3's data store (DS) keeps its entries and, beside each, which subscribers to tell of it (Herder and others,
//! DSN 2007). Floors, the journal and stamps are of this project.
#![tactic(auto)]

mod content;

pub use content::{Content, Shown};
