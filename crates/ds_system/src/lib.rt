//! A system, by definitions only: RS beside a world of two stores, and the driver tables of a file server and a network
//! server. The definitions say what can happen and what follows; laws hold over every list of events.
//!
//! RS, which publishes its services' labels, and the servers that send to their drivers are MINIX 3's (Herder and
//! others, DSN 2007; Tanenbaum and Woodhull, third edition). Versions, replicas and messages are of this project.
//!
//! A running system: RS beside a world of two stores, and the driver tables of a file server and a network server,
//! driven by one list of events. Nothing is assumed about the events; RS's settings were checked.
//!
//! RS, which publishes its services' labels, and the servers that send to their drivers are MINIX 3's (Herder and
//! others, DSN 2007; Tanenbaum and Woodhull, third edition). Versions, replicas and messages are of this project.
#![tactic(auto)]

mod beginning;
mod copying;
mod event;
mod events;
mod fault;
mod laws;
mod outcome;
mod outcomes;
mod recovery;
mod replies;
mod rounds;
mod system;
mod turning;

pub use event::{SystemEvent, Table};
pub use events::SystemEvents;
pub use fault::BeginFault;
pub use laws::{systems_keep_laws, tables_send_to_no_older, wrong_turns_are_refused};
pub use outcome::{SystemFault, SystemOutcome};
pub use outcomes::SystemOutcomes;
pub use recovery::{drivers_recover, instances_serve, recovery_premises};
pub use replies::Replies;
pub use rounds::Rounds;
pub use system::System;
