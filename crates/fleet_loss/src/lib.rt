//! How a bridge judges whether its server lost something, and what a compaction has to check itself: definitions and laws.
//!
//! A bridge looks at a redis stream each second: at its counts, and at a few entries that have to be there. All of it is this project's
//! own.
#![tactic(auto)]

mod laws;

pub use laws::{compactions_check, losses_are_judged};
