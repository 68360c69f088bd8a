//! The language of scripts and traces: one command on each line.
//!
//! `offer ITEM` merges a change or a floor, as a message from another replica would. `publish`, `delete`, `sweep`,
//! `retrieve` and `nameof` are commands of processes and of RS to MINIX 3's data store, `subscribe` and `check` those
//! of a subscriber, `since`, `snapshot` and `page` those of another replica. `show` and `all` print what is held; `map`
//! and `entries` make a map of a query and print it. In a world of two stores `ring` sets the size of their journals,
//! `side` chooses one of them, and `deliver`, `clear` and `restart` are the world's own events. `settings` gives RS its
//! settings; `service`, `death`, `beat` and `tick` are its events. `assign`, `follow`, `submit` and `reply` are for the
//! driver tables of two servers. The lines are of this project.
#![tactic(auto)]

mod after;
mod asking;
mod command;
mod events;
mod fast;
mod fault;
mod later;
mod laws;
mod lines;
mod pieces;
mod query;
mod reading;
mod scope;
mod scope_lines;
mod service;
mod service_event;
mod service_lines;
mod service_pieces;
mod settings_text;
mod slot;
mod table;
mod table_lines;
mod word;
mod wording;
mod world_lines;
mod world_pieces;

pub use command::ScriptCommand;
pub use fast::{
    Publication, fast_offer, fast_publish, fast_retrieve, is_offer, is_publish, is_retrieve,
};
pub use fault::CommandFault;
pub use later::read_line_after;
pub use laws::{lines_are_proper, lines_have_one_command, rows_are_commands};
pub use reading::{read_command, read_line};
pub use service::{Device, Request, Server};
pub use settings_text::SettingsText;
pub use slot::Slot;
pub use table::slots_of;
pub use word::Word;
