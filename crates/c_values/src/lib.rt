//! Turns C's requests into commands, and replies into answers for C, and copies texts to a caller's buffers.
//!
//! The commands are those of MINIX 3's data store (DS) and of this project. The structs are this project's.
#![tactic(auto)]

mod answer;
mod giving;
mod lines;
mod parts;
mod reading;
mod request;
mod telling;
mod texts;

pub use answer::{Answer, Word};
pub use giving::{Given, give, give_items};
pub use lines::read_items;
pub use parts::{caller_of, endpoint, key_of, kind, name_in};
pub use reading::read_request;
pub use request::Request;
pub use telling::{answer_of, named, no_room, refusal_number};
pub use texts::{Publication, read_publication, text_of};
