//! Recording: runs one store on the commands of an input, and writes the trace of that run.
//!
//! A line is a command as in a trace, without its mark, and with the pass 0 if none is there. The output is a legal
//! trace, as `trace_walk` defines it, whatever the input is and however the recording ends. This project's.
#![tactic(auto)]

mod asking;
mod begin;
mod fault;
mod form;
mod line;
mod opened;
mod pass;
mod place;
mod recorder;
mod recording;
mod ring;
mod waiting;

pub use fault::RecordFault;
pub use form::Form;
pub use opened::Recording;
