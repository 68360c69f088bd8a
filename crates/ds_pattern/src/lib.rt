//! Patterns over the names of entries, and queries.
//!
//! A subscription of MINIX 3's data store (DS) is a regular expression over the names of entries (the DS interface of
//! MINIX 3; Herder and others, DSN 2007). This project adds kinds and limits, matches names whole, and takes the syntax of
//! the crate `regex`.
#![tactic(auto)]

mod asker;
mod filter;
mod laws;
mod narrow;
mod pattern;
mod query;
mod threads;

pub use asker::Asker;
pub use filter::Filter;
pub use laws::dot_star_is_a_pattern;
pub use pattern::{LONGEST_PATTERN, Pattern, PatternFault, SIZE_LIMIT};
pub use query::{PatternText, Query};
pub use threads::filters_cross_threads;
