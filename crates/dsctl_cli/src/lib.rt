//! The words of `dsctl`: its command line, parsed by `clap`, with the help; the greeting, the prompt and its commands;
//! and the failures.
//!
//! This crate knows no store, so the help and the words are proved without one. This project's.
#![tactic(auto)]

mod described;
mod failure;
mod help;
mod help_record;
mod help_short;
mod help_traces;
mod help_word;
mod help_words;
mod input;
mod live_words;
mod prompt;
mod record_words;
mod refusals;
mod rows;
mod words;

pub use failure::Failure;
pub use help::LINES;
pub use input::Input;
pub use prompt::{Answers, Greeting, LastLine, Terminals, Typed, greet};
pub use refusals::Topic;
pub use words::{Asked, Crew, Replaying, TraceForm, Words, read};
