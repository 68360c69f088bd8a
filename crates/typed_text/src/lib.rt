//! Texts that a user typed or wrote: their kind, the known word nearest to an unknown one, and settings, printed as lines
//! or explained by sentences about their faults.
//!
//! The reader of settings reports a cause and a service; here the text is searched for the field and its line.
//! `ds_explain` and `dsctl_cli` use the words, `dsctl` the settings. This project's.
#![tactic(auto)]

mod as_line;
mod faults;
mod field;
mod given;
mod kind;
mod known;
mod meant;
mod place;
mod respelled;
mod settings_fault;
mod settings_lines;
mod shared;
mod shown;

pub use as_line::{ScriptLine, script_line};
pub use kind::TextKind;
pub use known::{IfNear, Search, nearest};
pub use meant::{COMMANDS, Meant};
pub use respelled::respell;
pub use settings_fault::explain_settings;
pub use settings_lines::write_settings;
pub use shown::Plain;
