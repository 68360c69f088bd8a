//! Reads an input line by line, and writes texts to a writer.
//!
//! The caller moves from line to line while whole ones are buffered, and then reads once more. So it decides what to do
//! before each read. The last line may lack its newline. The traits for readers and writers let a type state which bytes
//! it has, and which of its calls fail. Those of std state their bytes.
#![tactic(auto)]

mod faulty;
mod laws;
mod lines;
mod missed;
mod pull;
mod sending;
mod split;
mod streams;
mod transfer;

pub use faulty::{FailRead, FailWrite};
pub use laws::inputs_have_lines;
pub use lines::Lines;
pub use missed::Missed;
pub use pull::{LONGEST_LINE, Pulled};
pub use sending::{send, send_full};
pub use split::{newline_place, split_line};
pub use streams::{Plain, Sink, Source};
pub use transfer::{Filled, WriteFailed, write_out};
