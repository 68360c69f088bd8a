//! Sentences on standard error about a script's bad line, about commands to record that can't be read, and about a trace
//! that isn't legal.
//!
//! The reader of scripts reports where a line is bad and which part was expected; here that becomes a sentence, with
//! the nearest command for an unknown word, and at a terminal the line with a caret. The checker of traces reports which
//! line was expected, and which was found. Two readers keep what such a sentence shows of an input: its front, or its
//! last lines. `typed_text` explains settings. This project's.
#![tactic(auto)]

mod bad_line;
mod bad_part;
mod found;
mod front;
mod header;
mod stopped;
mod stray;
mod tail;
mod trace_fault;
mod trace_line;
mod wanted;

pub use bad_line::{Audience, explain};
pub use front::WithFront;
pub use stopped::{explain_recorded, explain_upgrade};
pub use tail::WithTail;
pub use trace_fault::explain_trace;
