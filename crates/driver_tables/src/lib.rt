//! What file and network servers know of their drivers, and what they do with requests when a driver is restarted.
//!
//! A file server finds the driver of a major device in a table, a network server that of a port (Tanenbaum and
//! Woodhull, third edition). When RS has restarted a driver, its server reintegrates it: a file server sends a block
//! driver's pending requests again, a network server restarts its port, and the application learns of a character
//! driver's fault (Herder and others, DSN 2007).
#![tactic(auto)]

mod device;
mod drivers;
mod fault;
mod file_table;
mod laws;
mod moves;
mod net_table;
mod request;
mod state;
mod table;

pub use drivers::Drivers;
pub use fault::TableFault;
pub use file_table::{FileClass, FileTable};
pub use laws::runs_keep_requests;
pub use moves::{Ending, Move, Moves};
pub use net_table::NetTable;
