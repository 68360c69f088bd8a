//! Machines that publish labels, and owe notices to their followers.

use history::Machine;
use std::alloc::Global;
use test_kit::Failure;

/// A machine that publishes the labels of drivers, and owes notices to its followers.
pub(crate) trait Followed: Machine {
    /// Returns a new machine that begins at a position, or `None` if memory runs out.
    fn begin_at(alloc: Global, position: u64) -> Option<Self>;

    /// Returns a Subscribe to all that comes later, in place of any subscription of this number. `None` if memory runs out.
    fn follow(alloc: Global, sub: u32) -> Option<Self::Command>;

    /// Returns the command by which RS publishes a driver's label, over that of an earlier generation. `None` if one of the parts is out of
    /// its range.
    fn start(label: &[u8], generation: u32, slot: u16) -> Option<Self::Command>;

    /// Returns the stamp in the reply of a Subscribe.
    fn stamp_in(reply: &Self::Reply) -> Option<u64>;

    /// Returns the generation of the endpoint under a label, or `None` if there is no such label.
    fn generation_of(&mut self, label: &[u8]) -> Option<u32>;

    /// Returns the machine's position.
    fn position(&self) -> u64;

    /// Prints a reply.
    fn tell_reply<R: Print>(rt: &R, reply: &Self::Reply) -> Result<(), Failure>;
}
