//! Settings: what an administrator tells the reincarnation server (RS) about its services.
//!
//! For each driver and server, MINIX 3's RS gets its label, what it drives, how often to check that it is alive, and how
//! often to restart it (Tanenbaum and Woodhull, third edition; Herder and others, DSN 2007). The TOML document, its
//! fields and their ranges are this project's. A document is read whole, or refused with its first fault.
#![tactic(auto)]

mod class;
mod draft;
mod fault;
mod format;
mod law;
mod names;
mod seen;
mod service;
mod services;
mod settings;
mod shared;
mod value;

pub use class::Class;
pub use fault::{SettingsCause, SettingsFault};
pub use law::{first_is_plain, formats_agree, services_are_apart};
pub use names::Names;
pub use service::Service;
pub use services::Services;
pub use settings::{Settings, read, read_any, read_any_table, read_table};
