//! The threads' commands to a counter.

use crate::compared::Compared;
use crate::counter::{Count, Counted, Counter};
use history::Machine;
use std::alloc::Global;
use test_kit::Kept;

impl Compared for Counter {
    fn begin(_alloc: Global) -> Option<Counter> {
        Some(Counter::new(0))
    }

    /// Returns an addition in most turns. In some turns the thread sets the subscriptions, or reads.
    fn command_of(_alloc: Global, _seen: u64, turn: u32) -> Option<Count> {
        Some(match turn % 8 {
            0 => Count::Watch((1u128 << (turn % 128)) | 1),
            3 => Count::Read,
            _ => Count::Add(u64::from(turn)),
        })
    }

    /// Returns the command as it is, since a counter has no items.
    fn first_of(command: Count, _items: usize) -> Option<Count> {
        Some(command)
    }

    fn answer(&mut self, command: Count) -> Counted {
        self.step(command)
    }

    fn kept_of(_alloc: Global, reply: &Counted) -> Option<Kept> {
        Some(Kept::Reply {
            mark: reply.total,
            owed: reply.owed,
        })
    }

    fn is_as_far_as(&self, other: &Counter) -> bool {
        self == other
    }
}
