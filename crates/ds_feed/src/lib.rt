//! The journal: the last items that took effect in a store. A reader gets those from a cursor on.
//!
//! A subscriber of MINIX 3's data store is notified of a change, and checks. Journals, and the cursor from which a
//! subscriber catches up after it was away, are this project's.
#![tactic(auto)]

mod cursor;
mod journal;
mod laws;
mod reading;
mod scope;

pub use cursor::Cursor;
pub use journal::{Journal, OpenFault, SinceFault};
pub use laws::{pages_go_on, prefixes_are_shortest};
pub use reading::{Page, Since, Snapshot};
pub use scope::{AllKeys, KeyScope};
