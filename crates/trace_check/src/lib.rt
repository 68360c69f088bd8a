//! Recorded traces of one store, judged against the store's machine.
//!
//! `trace_walk` defines traces and verdicts, and `trace_walk` passes one entry after another. This crate judges a
//! whole trace, and writes one of format 1 in format 2.
#![tactic(auto)]

mod judged;
mod upgrading;
mod verifying;

pub use judged::Judged;
pub use trace_walk::{Stands, Verdict, Wanted, WrongLine};
pub use upgrading::{UpgradeFault, upgrade};
pub use verifying::{judge, verify};
