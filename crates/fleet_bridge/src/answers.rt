//! What the answers change.

ghost use Rattle.std.specs.Prelude.{◌≡◌, ◌≤◌, true, false, Some};
ghost use Rattle.fleet_bridge.specs.State.{MetBy, acknowledged, fetched, ConsumedBy};

use crate::bridge::Bridge;
use crate::question::Reading;

impl Bridge {
    /// Takes the history that the server has. Another one than the bridge met last is read from its front, and gets all held items.
    pub fn meet(&mut self, history: u64)
        ensures { MetBy self.old history self.new }
    {
        self.is_met = true;
        if self.met == Some(history) {
            return;
        }
        self.position = 0;
        self.must_resend = true;
        self.has_dropped = false;
        self.met = Some(history);
        self.has_gap = false;
        self.is_at_end = false;
    }

    /// Takes an acknowledgement, for which enough replicas were waited. Returns the number of items that leave the outbox, from its front.
    pub fn acknowledge(&mut self) -> u64
        ensures acknowledged { self.new ≡ acknowledged self.old }
        ensures count { result ≡ self.old.in_flight }
    {
        let count = self.in_flight;
        self.outbox = self.outbox.saturating_sub(count);
        self.in_flight = 0;
        count
    }

    /// Takes a snapshot up to the entry of the id `end`, whose items were merged but for those that were dropped.
    pub fn fetch(&mut self, end: u128, has_dropped: bool)
        ensures { self.new ≡ fetched self.old end has_dropped }
    {
        self.position = end;
        self.has_dropped = self.has_dropped || has_dropped;
        self.has_gap = false;
        self.is_at_end = false;
    }

    /// Takes an answer to a reading, and returns whether its items count as read.
    ///
    /// An answer under another history, or that begins elsewhere, is ignored. So is one that begins before the snapshot's end: that
    /// snapshot is lacking.
    pub fn consume(&mut self, reading: Reading) -> bool
        ensures { ConsumedBy self.old reading result self.new }
    {
        if self.met != reading.history || self.position != reading.from {
            return false;
        }
        if reading.end > reading.from {
            self.has_gap = true;
            return false;
        }
        self.position = reading.last;
        self.has_dropped = self.has_dropped || reading.has_dropped;
        self.is_at_end = reading.is_all;
        true
    }
}
