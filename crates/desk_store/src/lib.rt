//! The calls of a store that threads share at a desk.
//!
//! Laws over the histories of a store: how a subscriber's map follows it while others send commands, and what the store continues to hold
//! of merged items.
//!
//! A subscriber of MINIX 3's data store (DS) is notified of a change, and checks what changed (the DS interface of MINIX 3). By a stamp, a
//! subscriber learns that another program replaced its subscription. Stamps are this project's.
//!
//! Brings a subscriber's map up to date with a store that other threads call meanwhile.
//!
//! A subscriber of MINIX 3's data store (DS) is notified, and checks until nothing is left (the DS interface of MINIX 3). By a stamp, a
//! subscriber learns that another program replaced its subscription. Stamps and the limit of calls are this project's.
//!
//! Sends what the store at one desk holds to the store at another, while other threads call both.
//!
//! MINIX 3's data store (DS) is one. Two replicas and their exchange are this project's.
//!
//! The calls of RS and its store that threads share at a desk.
//!
//! RS and its store are one machine ([`rs_store`]), which a desk holds as it holds a store. Seats for the store of such a desk are this
//! project's, as desks are.
#![tactic(auto)]

mod call_fault;
mod calling;
mod client_seat;
mod exchange;
mod exchange_calls;
mod exchange_fault;
mod exchange_laws;
mod follower;
mod giving;
mod map_laws;
mod merging;
mod pair;
mod pair_laws;
mod pair_questions;
mod pass_laws;
mod questions;
mod refresh_fault;
mod refresh_laws;
mod refreshing;
mod seat;
mod store_seat;

pub use call_fault::CallFault;
pub use client_seat::ClientSeat;
pub use exchange::{Exchanged, exchange_once};
pub use exchange_fault::ExchangeFault;
pub use exchange_laws::exchanged_alike;
pub use follower::Follower;
pub use map_laws::{followers_follow, merged_items_stay};
pub use pair::PairSeat;
pub use pair_laws::pair_passes_see_more;
pub use pass_laws::passes_see_more;
pub use questions::Shown;
pub use refresh_fault::RefreshFault;
pub use refresh_laws::{followers_keep_up, refreshed_alike};
pub use refreshing::{Fresh, refresh};
pub use seat::Seat;
pub use store_seat::StoreSeat;
