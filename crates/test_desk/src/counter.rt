//! A counter that threads share at a desk. It adds numbers, and owes a notice to those that watch it.
//!
//! With it, the tests use a desk over another machine than a store.

ghost use Rattle.std.specs.Prelude.{◌≡◌};

use history::Machine;

/// A command to a counter.
#[derive(Clone, Copy)]
pub(crate) enum Count {
    /// Sends notices to exactly these subscriptions from now on. Bit 8 s + k is subscription k of server s.
    Watch(u128),
    /// Adds a number to the sum, modulo 2^64.
    Add(u64),
    /// Returns the sum.
    Read,
}

/// The reply of a counter.
#[derive(Clone, Copy)]
pub(crate) struct Counted {
    /// The sum.
    pub total: u64,
    /// The mask of the subscriptions that are owed a notice.
    pub owed: u128,
}

/// A sum, and the subscriptions that are owed a notice at each addition.
#[derive(Clone, Copy, PartialEq, Eq)]
pub(crate) struct Counter {
    /// The sum.
    pub total: u64,
    /// The subscriptions.
    pub watchers: u128,
}

impl Counter {
    /// Returns a counter without subscriptions.
    pub(crate) fn new(total: u64) -> Counter
        ensures { (result.total ≡ total) × (result.watchers ≡ 0) }
    {
        Counter { total, watchers: 0 }
    }
}

impl Machine for Counter {
    ghost use Rattle.test_desk.specs.Counting.{CounterStep, owes_of};
    ghost use Rattle.test_desk.specs.declared.counter.Counter.{Counter};

    type Command = Count;

    type Reply = Counted;

    ghost State = { Counter };

    ghost stands = { λ m s. m ≡ s };

    ghost steps = { CounterStep };

    ghost owes = { owes_of };

    fn step(&mut self, command: Count) -> Counted {
        match command {
            Count::Watch(watchers) => {
                self.watchers = watchers;
                self.answer(0)
            }
            Count::Add(amount) => {
                self.total = self.total.wrapping_add(amount);
                self.answer(self.watchers)
            }
            Count::Read => self.answer(0),
        }
    }

    fn owed(reply: &Counted) -> u128 {
        reply.owed
    }
}

impl Counter {
    // Returns the sum, with this mask of subscriptions that are owed a notice.
    fn answer(&self, owed: u128) -> Counted
        ensures { (result.total ≡ self.now.total) × (result.owed ≡ owed) }
    {
        Counted {
            total: self.total,
            owed,
        }
    }
}
