//! Changes, floors and lists of them: what replicas of the data store send each other.
//!
//! In MINIX 3's data store an entry has an owner, the label of the process that published it. Only the reincarnation
//! server (RS) publishes labels (Herder and others, DSN 2007). Versions of changes, tombstones of deletes and floors are
//! this project's.
#![tactic(auto)]

mod blob;
mod body;
mod bytes;
mod change;
mod floor;
mod item;
mod items;
mod laws;
mod text;

pub use blob::{Blob, BlobFault};
pub use body::{Body, Value};
pub use change::{Change, EntryFault};
pub use floor::Floor;
pub use item::{Item, ItemRef};
pub use items::Items;
pub use laws::{items_are_ordered, items_cover_one_another};
pub use text::{Text, TextFault};
