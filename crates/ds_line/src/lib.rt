//! Reads and writes the lines of changes and floors. Each change and each floor has exactly one spelling.
//!
//! A change's line is `NAME KIND OWNER EPOCH.SEQ = VALUE`, or ends with `-` for a tombstone. A floor's is `! OWNER
//! GENERATION`. Each ends with a newline. Bytes that don't begin with a line are refused with the place of the first
//! part that can't be read. The format is this project's.
#![tactic(auto)]

mod block;
mod expected;
mod fault;
mod hex_digits;
mod item_laws;
mod item_reading;
mod item_writing;
mod last_value;
mod laws;
mod line;
mod numbers;
mod part_fault;
mod parts;
mod reading;
mod rules;
mod values;
mod writing;

pub use expected::Expected;
pub use fault::LineFault;
pub use item_laws::{
    item_faults_have_one_place, item_lines_are_apart, items_have_one_line, newlines_end_item_lines,
};
pub use item_reading::{read_item, read_item_into};
pub use item_writing::{append_item, write_item};
pub use last_value::last_value_at;
pub use laws::{changes_have_one_line, faults_have_one_place, lines_are_apart, newlines_end_lines};
pub use numbers::append_numbers;
pub use part_fault::{PartFault, stop_at};
pub use parts::{after_name, endpoint_at, kind_at, name_at, word_at};
pub use reading::read_change;
pub use writing::{append, append_all, append_change, append_value, write_change};
