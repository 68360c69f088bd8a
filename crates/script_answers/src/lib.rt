//! The lines that answer a script's commands to stores: replies, and the outcomes of a world's events.
//!
//! A reply is one line, after those of the items that it returns; what is owed has a line of its own. The lines are of
//! this project.
//!
//! The lines that answer a script's commands to RS and to driver tables.
//!
//! Each action of RS, and each move of a driver table's server, is one line. After them comes their number, or why
//! nothing was done. The lines are of this project.
#![tactic(auto)]

mod actions;
mod message;
mod moves;
mod outcome;
mod process;
mod reply;
mod settings;
mod shown;
mod wording;

pub use actions::{append_action, append_action_count, append_rs_fault};
pub use message::append_message;
pub use moves::{append_assigned, append_move, append_move_count, append_table_fault};
pub use outcome::{append_outcome, append_ring, append_side};
pub use reply::{append_noroom, append_offered, append_reply, write_reply};
pub use settings::{append_exists, append_settings, append_settings_fault};
pub use wording::Wording;
