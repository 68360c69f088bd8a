//! Machines that threads share at a desk, and that one thread has alone, to compare the replies.

use history::Machine;
use std::alloc::Global;
use test_kit::Kept;

/// A machine whose replies to threads at a desk are compared with those to one thread.
pub(crate) trait Compared: Machine {
    /// Returns a new machine, or `None` if memory runs out.
    fn begin(alloc: Global) -> Option<Self>;

    /// Returns the command of a thread at one of its turns, when it has seen `seen` calls. `None` if memory runs out.
    fn command_of(alloc: Global, seen: u64, turn: u32) -> Option<Self::Command>;

    /// Returns the command with only the first `items` of its items, or `None` if memory runs out.
    fn first_of(command: Self::Command, items: usize) -> Option<Self::Command>;

    /// Answers one thread without a desk.
    fn answer(&mut self, command: Self::Command) -> Self::Reply;

    /// Returns the digest of a reply, or `None` if memory runs out.
    fn kept_of(alloc: Global, reply: &Self::Reply) -> Option<Kept>;

    /// Returns whether the machine is at the same position as another one that took the same commands.
    fn is_as_far_as(&self, other: &Self) -> bool;
}
