//! The text of a trace: its lines, which texts are legal traces, and where a text that isn't goes wrong.
//!
//! A trace is a header, and then entries: a command, on lines that begin with `>` and `+`, and its reply, on lines that
//! begin with `<`. It is legal if its entries are a legal history: each reply is one that the machine gives in the
//! state after the entries before it. The format is this project's; docs/reference/traces.md describes it.
//!
//! A walk through a recorded trace of one store, entry by entry.
//!
//! A trace's header opens a store, which runs the commands of the entries in order, and the trace must have the store's
//! replies. `trace_walk` defines traces, and which are legal.
#![tactic(auto)]

mod asked;
mod entry;
mod expected;
mod fault;
mod header;
mod laws;
mod merges;
mod number;
mod passed;
mod replies;
mod stopping;
mod sweep;
mod verdict;
mod walk;
mod writing;
mod wrong_line;

pub use asked::{Asked, AskedFault, Head, read_head};
pub use entry::{EntryFault, EntryReader, next_line};
pub use fault::WalkFault;
pub use header::{Format, Header};
pub use laws::{
    entries_lead_on, first_lines_tell, headers_are_judged, heads_are_judged, places_are_judged,
    replies_are_one, tombstones_are_taken, traced_states_stay, traces_are_histories,
    upgraded_traces_are_legal,
};
pub use passed::{Passed, append_passed};
pub use sweep::{Sweep, older, sweep_older};
pub use verdict::Verdict;
pub use walk::Walk;
pub use writing::{append_header, append_marked};
pub use wrong_line::{Stands, Wanted, WrongLine};
