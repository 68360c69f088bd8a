//! The text of a question.

ghost use Rattle.std.specs.Prelude.{take};
ghost use Rattle.c_values.specs.Pieces.{GivesPieces};
ghost use Rattle.c_bridge.specs.Texts.{lines_from};

use crate::bridge::StoreBridge;
use c_values::{Given, give_items};
use std::alloc::Global;

impl StoreBridge {
    /// Copies to a buffer the lines of the items that the question under way adds, from the line at index `first` on, as many whole ones as
    /// fit.
    pub fn give_added(&self, alloc: Global, first: usize, room: &mut [u8]) -> Given
        ensures { GivesPieces (lines_from first (take self.now.decisions.in_flight self.now.outbox)) room.old result room.new }
    {
        let outbox = self.outbox.as_slice();
        let most = outbox.len().min(self.decisions.in_flight as usize);
        give_items(alloc, &outbox[..most], first, room)
    }

    /// Likewise, for the snapshot of the compaction under way. Its lines are those of all that was held when it was asked for.
    pub fn give_snapshot(&self, alloc: Global, first: usize, room: &mut [u8]) -> Given
        ensures { GivesPieces (lines_from first self.now.snapshot) room.old result room.new }
    {
        give_items(alloc, self.snapshot.as_slice(), first, room)
    }
}
