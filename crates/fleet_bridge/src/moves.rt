//! What a bridge does of itself.

ghost use Rattle.std.specs.Prelude.{◌≡◌, ◌<◌, ◌≤◌, ◌+◌, ◌^◌, true, false, IfOk, OnOk, OnErr};
ghost use Rattle.fleet_bridge.specs.State.{changed, refilled, folded, rereading, doubting, parted};

use crate::bridge::{Bridge, TooMany};

impl Bridge {
    /// Notes a change of the store's own, which is in the outbox from now on. Refuses one more than a number can count.
    pub fn change(&mut self) -> Result<(), TooMany>
        ensures changed { OnOk result (self.new ≡ changed self.old) }
        ensures refused { OnErr result ((self.new ≡ self.old) × (2 ^ 64 ≤ self.old.outbox + 1)) }
    {
        let Some(outbox) = self.outbox.checked_add(1) else {
            return Err(TooMany);
        };
        self.outbox = outbox;
        Ok(())
    }

    /// Notes that `count` held items were put into the outbox, which are all that were neither read nor there. Refuses more than a number
    /// can count.
    pub fn refill(&mut self, count: u64) -> Result<(), TooMany>
        ensures refilled { OnOk result (self.new ≡ refilled self.old count) }
        ensures refused { OnErr result ((self.new ≡ self.old) × (2 ^ 64 ≤ self.old.outbox + count)) }
    {
        let Some(outbox) = self.outbox.checked_add(count) else {
            return Err(TooMany);
        };
        self.outbox = outbox;
        self.must_resend = false;
        Ok(())
    }

    /// Notes that the outbox is all `count` held items from now on.
    pub fn fold(&mut self, count: u64)
        ensures { self.new ≡ folded self.old count }
    {
        self.outbox = count;
        self.in_flight = 0;
    }

    /// Begins to read everything once more, since there is memory again.
    pub fn reread(&mut self)
        ensures { self.new ≡ rereading self.old }
    {
        self.position = 0;
        self.has_dropped = false;
        self.is_at_end = false;
    }

    /// Notes that another bridge holds something else.
    pub fn doubt(&mut self)
        ensures { self.new ≡ doubting self.old }
    {
        self.must_resend = true;
    }

    /// Notes that the connections ended.
    pub fn part(&mut self)
        ensures { self.new ≡ parted self.old }
    {
        self.is_met = false;
        self.has_gap = false;
        self.is_at_end = false;
    }
}
