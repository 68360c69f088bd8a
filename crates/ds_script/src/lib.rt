//! Scripts: a session over a world of two stores, and its replay, which answers a script line by line. A session may go
//! through several scripts, and its store may be saved as one.
//!
//! A script sends commands to the stores, RS and the driver tables, makes maps, and delivers messages, one command a
//! line. The fault of a replay that ends early tells reading, writing and memory apart. The lines and their answers are
//! this project's; docs/reference/lines.md lists them.
//!
//! Scripts of format 2: comments and empty lines are passed over.
//!
//! A script of format 2 is answered as the script of format 1 that is left when its comments and empty lines are taken
//! away. This project's.
#![tactic(auto)]

mod answer;
mod bad_line;
mod entries;
mod event;
mod fast;
mod fault;
mod laws;
mod line;
mod note_laws;
mod place;
mod replaying;
mod report;
mod saved;
mod session;
mod shown;
mod stream;
mod taking;
mod tally;
mod turn;
mod without_notes;

pub use fault::ReplayFault;
pub use laws::{none_is_bad_where_one_ends, scripts_are_events};
pub use note_laws::whole_lines_are_left;
pub use replaying::replay_without_notes;
pub use report::{BadLine, BadLines, Report};
pub use saved::append_saved;
pub use session::{RING, Session};
pub use stream::{Replayed, replay, replay_reporting};
