//! What the parts of the program for tests share: its failures, and functions that parse words and append answers.
//!
//! This project's.
//!
//! Threads that call one desk, over any machine, for programs that test desks.
//!
//! A crew is 1 to 64 threads that do one task, each with a pass of one desk. They leave notes for each other on a
//! board. When all are done, the desk is closed, and the threads' answers and counts can be compared with what it
//! returns. This project's.
#![tactic(auto)]

mod board;
mod crew;
mod failure;
mod kept;
mod reading;
mod task;
mod telling;
mod worker;

pub use board::{Board, DeskName, Left, LeftOf};
pub use crew::{Crew, run_crew};
pub use failure::Failure;
pub use kept::Kept;
pub use reading::{name_at, number_at};
pub use task::Task;
pub use telling::{append_items, append_number};
pub use worker::{Said, Worker};
