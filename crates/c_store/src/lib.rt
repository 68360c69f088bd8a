//! Sessions: a store with its last answer, whose text a caller fetches in pieces.
//!
//! Carries out the lines of a script in a session, and copies the text of the last answer as a script prints it.
//!
//! A subscriber's map for C. It takes the lines of items, and finds the endpoint of a label.
//!
//! A server's driver table for C: it follows a map, takes requests and replies, and hands out the moves that answer them.
#![tactic(auto)]

mod answers;
mod calling;
mod drivers;
mod fast;
mod giving;
mod last;
mod laws;
mod line_calling;
mod line_fast;
mod map;
mod moves;
mod reading;
mod server_table;
mod serving;
mod session;
mod text;

pub use giving::TableMove;
pub use last::Last;
pub use laws::{table_calls_are_runs, table_calls_reach_no_older};
pub use line_calling::carry_out;
pub use line_fast::{fast_name_of, fast_retrieve};
pub use map::{label_in, new_map, take_lines};
pub use reading::read_bytes;
pub use server_table::ServerTable;
pub use session::Session;
pub use text::{give_part, give_text, no_text};
