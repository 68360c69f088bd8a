//! A desk: one machine that many threads call in turns, with one history, and notices for subscribers that wait for a
//! change.
//!
//! The thread that holds the turn has the machine to itself, as under a lock. Each thread's pass keeps what the thread
//! knows of the history. A note carries that to another pass. After the turn of a call that changes something for a
//! subscriber, a bit of that server's pending word is set. A take of the word returns all of its bits and clears them.
//! Two posts of one bit become one, as with MINIX 3's notifications. Desks are this project's.
#![tactic(auto)]

mod account;
mod call;
mod close;
mod close_into;
mod desk;
mod fault;
mod free_call;
mod notice;
mod open;
mod pass;
mod passes;

pub use account::{Account, AccountRoom, Row};
pub use close::{CloseStop, Closed};
pub use desk::{Answer, Desk, DeskOf, Made, Taken};
pub use desk_rule::NoTurn;
pub use fault::{DeskFault, LearnStop};
pub use open::OpenStop;
pub use pass::{Note, NoteOf, Pass, PassOf, Sight};
pub use passes::{Passes, PassesOf};
