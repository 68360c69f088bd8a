//! The reincarnation server (RS): which services run, under which endpoints, and what each event leads to.
//!
//! MINIX 3's RS starts drivers and servers, learns of their deaths, pings them, and restarts them with a binary
//! back-off up to a limit (Herder and others, DSN 2007; Tanenbaum and Woodhull, third edition). This crate has only its
//! decisions, as a machine: events go in, actions come out. The numbers of causes, the limits and the order of refusals
//! are of this project.
#![tactic(auto)]

mod action;
mod deed;
mod due;
mod event;
mod fault;
mod finding;
mod judging;
mod law;
mod numberer;
mod plan;
mod rs;
mod settling;
mod slots;
mod state;

pub use action::{Action, Actions};
pub use event::Event;
pub use fault::{NewFault, RenewFault, RsFault};
pub use law::{
    beats_are_noted, deaths_are_final, labels_are_single_numbered, numbers_rise, readings_hold,
    renewals_keep_numbers, starts_rise, steps_say,
};
pub use numberer::{Numberer, SeqSpent};
pub use plan::Plan;
pub use rs::Rs;
pub use settling::{services_recover, settling_premises, ticks_settle};
pub use state::{Pause, Running, State};
