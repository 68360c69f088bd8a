//! How deliveries are counted.

ghost use Rattle.std.specs.Prelude.{◌≡◌, None};
ghost use Rattle.ds_replica.specs.Delivery.{ended};
ghost use Rattle.ds_world.specs.Tally.{outcome_of, tally_of, both_tallied, fault_of, CanJoin};

use ds_join::Count;
use ds_machine::Refusal;
use ds_pattern::PatternFault;
use ds_replica::{EventFault, Outcome};

// The tally of a delivery: the count of its items, the mask of subscriptions to notify, and the refusal that stopped
// it.
#[derive(Clone, Copy, Drop)]
pub(crate) struct Tally {
    pub(crate) count: Count,
    pub(crate) owed: u128,
    pub(crate) stop: Option<Refusal>,
}

impl Tally {
    // Returns the tally of `done` items, none of them taken or stale, with this end.
    pub(crate) fn ended(done: usize, owed: u128, stop: Option<Refusal>) -> Tally
        ensures { tally_of result ≡ ended done owed stop }
    {
        Tally {
            count: Count {
                done,
                taken: 0,
                stale: 0,
            },
            owed,
            stop,
        }
    }

    // Adds the tally of the items that followed.
    pub(crate) fn add(&mut self, later: &Tally)
        requires { CanJoin (tally_of self.old) (tally_of later.now) }
        ensures { tally_of self.new ≡ both_tallied (tally_of self.old) (tally_of later.now) }
    {
        self.count.done += later.count.done;
        self.count.taken += later.count.taken;
        self.count.stale += later.count.stale;
        self.owed |= later.owed;
        self.stop = later.stop;
    }

    // Returns the outcome of the delivery.
    pub(crate) fn outcome(&self) -> Outcome
        ensures { result ≡ outcome_of self.now }
    {
        match self.stop {
            None => Outcome::Merged {
                count: self.count,
                owed: self.owed,
            },
            Some(fault) => Outcome::Stopped {
                done: self.count.done,
                fault,
                owed: self.owed,
            },
        }
    }
}

// Returns why a map can't be made.
pub(crate) fn fault_of(fault: PatternFault) -> EventFault
    ensures { result ≡ fault_of fault }
{
    match fault {
        PatternFault::TooLong => EventFault::TooLong,
        PatternFault::BadPattern => EventFault::BadPattern,
        PatternFault::NoRoom => EventFault::NoRoom,
    }
}
