//! Names, kinds, keys, endpoints and versions: the words that every other crate uses.
//!
//! MINIX 3's data store (DS) finds an entry by a name and a type, here a [`Kind`]. A process has an [`Endpoint`], which
//! is a generation and a slot (Tanenbaum and Woodhull, third edition; Herder and others, DSN 2007). Versions, and the
//! ranges of all numbers, are this project's.
#![tactic(auto)]

mod decimal;
mod endpoint;
mod key;
mod kind;
pub mod limits;
mod name;
mod room;
mod version;

pub use decimal::{read_byte, read_decimal};
pub use endpoint::{BadEndpoint, Endpoint, Generation, endpoints_have_one_text, read_endpoint};
pub use key::{Key, keys_are_ordered};
pub use kind::{Kind, Kinds};
pub use name::{Name, NameFault, is_name_byte};
pub use room::NoRoom;
pub use version::{Version, versions_are_ordered};
