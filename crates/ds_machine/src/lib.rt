//! The machine of a store: its states, the order in which causes against a command are judged, the effect and reply of
//! each command, and laws of steps and runs. `ds_store` implements its step.
//!
//! From MINIX 3's data store (DS; Herder and others, DSN 2007): publish, delete, retrieve, name, subscribe and check;
//! each entry has an owner, only RS publishes labels, and a live entry is overwritten only with the overwrite flag. Of
//! this project: versions, tombstones, floors, the journal, snapshots, pages and merges.
#![tactic(auto)]

mod command;
mod copying;
mod laws;
mod refusal;
mod reply;

pub use command::{Command, Scope};
pub use laws::{
    answers_fit, answers_say, floors_stand, free_items_are_taken, given_was_accepted,
    limits_are_kept, places_are_taken, refusals_say, rows_are_answered, states_are_reached,
    steps_are_one, steps_have_effects, subscriptions_are_kept,
};
pub use refusal::{Cause, Refusal};
pub use reply::Reply;
