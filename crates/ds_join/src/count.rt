//! Counts of items by their outcome.
ghost use Rattle.std.specs.Prelude.{◌≡◌};
ghost use Rattle.ds_join.specs.Count.{counted, none_counted, stop_after, CanCountOne};

use crate::merge::{JoinFault, Merge, Stop};

/// How many items a map or a delivery has handled, and how many were taken or stale. The others were known, or skipped
/// because they aren't under the map's query.
#[derive(Clone, Copy, PartialEq, Eq)]
pub struct Count {
    /// How many items were handled, including those that were skipped.
    pub done: usize,
    /// How many items took effect: a change if nothing or a smaller version of its key was held, a floor if none or a lower
    /// one of its owner was held.
    pub taken: usize,
    /// How many items were stale: a change if a greater version or a floor that voids it was held, a floor if a higher one
    /// of its owner was held.
    pub stale: usize,
}

impl Count {
    /// Returns the count of no items.
    pub fn none() -> Count
        ensures { result ≡ none_counted }
    {
        Count {
            done: 0,
            taken: 0,
            stale: 0,
        }
    }

    /// Counts one more item, by its answer. `None` is an item that was skipped.
    pub fn add(&mut self, answer: Option<Merge>)
        requires { CanCountOne self.old }
        ensures { self.new ≡ counted self.old answer }
    {
        self.done += 1;
        match answer {
            Some(Merge::Taken) => self.taken += 1,
            Some(Merge::Stale) => self.stale += 1,
            Some(Merge::Known) | None => {}
        }
    }

    /// Returns the error of a join that stopped at the next item with this fault.
    pub fn stop(&self, fault: JoinFault) -> Stop
        ensures { result ≡ stop_after self.now fault }
    {
        Stop {
            done: self.done,
            fault,
        }
    }
}
