//! The answers to a script's lines for RS and driver tables.
//!
//! A script begins RS with settings, passes it events, and sends its changes to the chosen store. It assigns devices to
//! drivers, has the tables of a file server and a network server follow a map, and gives them requests and replies. The
//! lines and their answers are of this project.
#![tactic(auto)]

mod acting;
mod calls;
mod following;
mod moves;
mod servers;
mod settings;

pub use acting::answer_event;
pub use servers::Servers;
