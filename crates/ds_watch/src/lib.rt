//! Subscriptions: the query of each, and the masks of what each is owed and hasn't been shown.
//!
//! A subscriber of MINIX 3's data store (DS) registers a regular expression over names. It is notified when a
//! matching entry changes, and then checks which one (the DS interface of MINIX 3; Herder and others, DSN 2007). The
//! limit of 128 subscriptions, and the stamps that number checks, are this project's.
#![tactic(auto)]

mod laws;
mod mask;
mod masks;
mod subscription;
mod subscriptions;

pub use laws::padding_keeps_number;
pub use mask::Mask;
pub use masks::Masks;
pub use subscription::Subscription;
pub use subscriptions::Subscriptions;
