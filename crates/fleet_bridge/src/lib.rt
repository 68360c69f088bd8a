//! The decisions of one bridge: what it asks its server next, and what each answer changes. Each move is an event of `fleet_rule`.
//!
//! A bridge has no items here: it counts its outbox, and an entry of the log is its id. So it takes no memory. All of it is this project's
//! own.
#![tactic(auto)]

mod answers;
mod asking;
mod bridge;
mod laws;
mod moves;
mod question;

pub use bridge::{Bridge, TooMany};
pub use laws::moves_happen;
pub use question::{Due, Question, Reading};
