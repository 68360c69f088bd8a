//! One subscription.

ghost use Rattle.std.specs.Prelude.{◌≡◌, IfOk};
ghost use Rattle.ds_pattern.specs.Under.{is_under};
ghost use Rattle.ds_watch.specs.Watching.{watching, stamped};

use ds_names::{Key, NoRoom};
use ds_pattern::Filter;
use std::alloc::Global;
use std::marker::Model;

/// A compiled query and a stamp. What the subscription hasn't been shown is in the masks of the held items.
#[derive(Drop)]
pub struct Subscription {
    filter: Filter,
    stamp: u64,
}

impl Model for Subscription {
    ghost use Rattle.ds_watch.specs.Watching.{Watching, watching};

    ghost Value = { Watching };

    ghost view = { λ s. watching s.filter s.stamp };
}

impl Subscription {
    /// Returns a subscription to a query, with this stamp. Takes no memory.
    pub fn new(filter: Filter, stamp: u64) -> Subscription
        ensures { result ≡ watching filter stamp }
    {
        Subscription { filter, stamp }
    }

    /// Returns whether the subscription is owed changes of the key. Fails only if memory runs out.
    pub fn admits(&self, alloc: Global, key: &Key) -> Result<bool, NoRoom>
        ensures { IfOk result (λ yes. yes ≡ is_under self.now.query key.now) }
    {
        self.filter.admits(alloc, key)
    }

    /// Returns the stamp of the last Subscribe or Check.
    pub fn stamp(&self) -> u64
        ensures { result ≡ self.now.stamp }
    {
        self.stamp
    }

    /// Sets the stamp, after a Check.
    pub fn set_stamp(&mut self, stamp: u64)
        ensures { self.new ≡ stamped stamp self.old }
    {
        self.stamp = stamp;
    }
}
