//! The subscriptions of a store, by number.

ghost use Rattle.std.specs.Prelude.{◌≡◌, ◌<◌, ◌≤◌, None, Some, is_some, length, map, replicate, slice_index_or, slice_set, IfOk};
ghost use Rattle.std.specs.Option.{option_map, option_copied};
ghost use Rattle.ds_watch.specs.Mask.{padded};
ghost use Rattle.ds_watch.specs.Watching.{watches, stamped};

use crate::mask::Mask;
use crate::subscription::Subscription;
use ds_names::{Key, NoRoom};
use std::alloc::Global;
use std::marker::Model;

// The most subscriptions of a store.
const MOST_PLACES: usize = 128;

/// The subscriptions of a store, each at the place of its number. There are at most 128 places, and those from `used`
/// on are empty.
#[derive(Drop)]
pub struct Subscriptions {
    places: [Option<Subscription>; MOST_PLACES],
    count: usize,
    used: usize,
}

impl Model for Subscriptions {
    ghost use Rattle.std.specs.Prelude.{◌≡◌, ◌≤◌, List, Option, length, take};
    ghost use Rattle.ds_watch.specs.Watching.{Watching, AreEmptyFrom};

    ghost Value = { List (Option Watching) };

    ghost view = { λ s. take s.count s.places };

    ghost invariant = { λ s. (length s.places ≡ 128) × (s.count ≤ 128) × (s.used ≤ s.count) × AreEmptyFrom s.used s.places };
}

impl Subscriptions {
    /// Returns this many empty places. Takes no memory.
    pub fn new(places: usize) -> Subscriptions
        requires { places ≤ 128 }
        ensures { result ≡ replicate places None }
    {
        Subscriptions {
            places: Default::default(),
            count: places,
            used: 0,
        }
    }

    /// Returns the subscription of this number, if there is one.
    pub fn get(&self, sub: usize) -> Option<&Subscription>
        requires { sub < length self.now }
        ensures { option_copied result ≡ slice_index_or self.now sub None }
    {
        let _count = self.count;
        self.places[sub].as_ref()
    }

    /// Puts a subscription at the place of this number, and drops the one that was there. Takes no memory.
    pub fn put(&mut self, sub: usize, subscription: Subscription)
        requires { sub < length self.old }
        ensures { self.new ≡ slice_set self.old sub (Some subscription) }
    {
        self.used = self.used.max(sub + 1);
        self.places[sub] = Some(subscription);
    }

    /// Sets the stamp of the subscription of this number, after a Check.
    pub fn set_stamp(&mut self, sub: usize, stamp: u64)
        requires { sub < length self.old }
        ensures { self.new ≡ slice_set self.old sub (option_map (stamped stamp) (slice_index_or self.old sub None)) }
    {
        let _count = self.count;
        if let Some(subscription) = &mut self.places[sub] {
            subscription.set_stamp(stamp);
        }
    }

    /// Returns the mask of the subscriptions that are owed changes of the key. Fails only if memory runs out for their
    /// patterns.
    pub fn owed(&self, alloc: Global, key: &Key) -> Result<Mask, NoRoom>
        ensures { IfOk result (λ owed. owed ≡ padded (map (watches key.now) self.now)) }
    {
        let mut owed = Mask::none();
        for i in 0..self.used {
            owed = owed.put(i, is_owed(alloc, &self.places[i], key)?);
        }
        Ok(owed)
    }

    /// Returns the mask of all subscriptions, each of which is owed every floor.
    pub fn made(&self) -> Mask
        ensures { result ≡ padded (map is_some self.now) }
    {
        let mut made = Mask::none();
        for i in 0..self.used {
            made = made.put(i, self.places[i].is_some());
        }
        made
    }
}

// Returns whether the place has a subscription that is owed changes of the key.
fn is_owed(alloc: Global, place: &Option<Subscription>, key: &Key) -> Result<bool, NoRoom>
    ensures { IfOk result (λ yes. yes ≡ watches key.now place.now) }
{
    match place {
        Some(subscription) => subscription.admits(alloc, key),
        None => Ok(false),
    }
}
