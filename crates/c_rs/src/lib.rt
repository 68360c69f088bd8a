//! RS beside a store, for C: a session whose store takes RS's label changes and sweeps, by structs and by lines of a script.
//!
//! RS is MINIX 3's reincarnation server. The structs and their numbers are of this project.
#![tactic(auto)]

mod action;
mod calling;
mod event;
mod fast;
mod fault;
mod line;
mod lines;
mod opening;
mod reading;
mod renewing;
mod running;
mod service;
mod session;
mod telling;
mod text;

pub use action::RsAction;
pub use event::{RsEvent, event_of};
pub use fault::{SettingsRefusal, service_number};
pub use renewing::{fault_after, renewal_number};
pub use running::calls_are_turns;
pub use service::RsService;
pub use session::RsSession;
pub use telling::{cause_number, rs_fault_number};
