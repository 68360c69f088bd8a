//! How a service reads a store whole while others use it: by the checks of a subscription, or by pages and the journal.
//! It relies only on the contract of `apply` and on laws.
//!
//! A subscriber of MINIX 3's data store is notified that something changed, and checks (Herder and others, DSN 2007).
//! Pages, the journal, and the proof that nothing is left out are of this project.
#![tactic(auto)]

mod asking;
mod asks;
mod checks;
mod fault;
mod gathering;
mod known;
mod others;
mod pages;
mod reading;

pub use asks::Asks;
pub use checks::read_by_checks;
pub use fault::ReadFault;
pub use gathering::go_past;
pub use others::{Among, Others};
pub use pages::read_by_pages;
pub use reading::Reading;
