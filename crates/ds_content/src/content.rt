//! The content of a store.

ghost use Rattle.std.specs.Prelude.{◌≡◌, ◌≤◌, ℕ, List, length, map, slice_index_or, None, IfOk, IfErr, IfSome, OnOk};
ghost use Rattle.std.specs.Option.{option_copied, option_map};
ghost use Rattle.ds_names.specs.declared.key.Key.{Key};
ghost use Rattle.ds_entry.specs.Change.{ChangeRecord, IsChange};
ghost use Rattle.ds_entry.specs.Void.{is_void};
ghost use Rattle.ds_entry.specs.declared.floor.Floor.{Floor};
ghost use Rattle.ds_feed.specs.Kept.{cursor_of, IsRing, IsJournalFault};
ghost use Rattle.ds_held.specs.Held.{held_items, IsSound};
ghost use Rattle.ds_held.specs.Kept.{IsFloorPlace, IsPlace};
ghost use Rattle.ds_machine.specs.Parts.{changes_in, floors_in, held_at, floor_at};
ghost use Rattle.ds_machine.specs.State.{State, opening};
ghost use Rattle.ds_watch.specs.Followed.{Followed};
ghost use Rattle.ds_content.specs.Stands.{ContentStands};
ghost use Rattle.ds_names.specs.Limits.{last_place};

use ds_entry::Change;
use ds_feed::{Cursor, Journal, OpenFault};
use ds_held::{Held, Limits};
use ds_index::Indexed;
use ds_names::{Generation, Key, Name};
use ds_watch::{Mask, Masks, Subscriptions};
use std::alloc::Global;
use std::marker::Model;

mod accepting;
mod copying;
mod marking;
mod naming;
mod paging;
mod raising;
mod reading;
mod showing;
mod subscribing;

pub use showing::Shown;

/// Everything that a store keeps: what it holds, the journal, and its subscriptions.
///
/// It stands for a state of the store's machine, which keeps every item that took effect. Its calls don't judge: their
/// preconditions say that no cause applies.
///
/// A subscription that isn't in `pending` has been shown everything that it is owed, so its check ends at once.
#[derive(Drop)]
pub struct Content {
    alloc: Global,
    held: Indexed<Masks>,
    pending: Mask,
    journal: Journal,
    stamp: u64,
    subscriptions: Subscriptions,
}

impl Model for Content {
    ghost use Rattle.ds_content.specs.Content.{ContentRecord};
    ghost use Rattle.ds_content.specs.Kept.{content_of, IsContentSound};

    ghost Value = { ContentRecord };

    ghost view = { content_of };

    ghost invariant = { IsContentSound };
}

impl Content {
    /// Returns the content of a store that was just opened: it holds nothing, and its first item gets position `first`.
    /// Refuses as BadRing unless the ring is 1 to 4096, then as BadFirst above 2^62, and last as NoRoom if the ring
    /// can't be allocated.
    pub fn open(
        alloc: Global,
        incarnation: u64,
        first: u64,
        ring: u32,
        limits: Limits,
    ) -> Result<Content, OpenFault>
        ensures opened { IfOk result (λ content. ContentStands content (opening incarnation first ring limits)) }
        ensures fits { OnOk result (IsRing ring × (first ≤ last_place)) }
        ensures refused { IfErr result (λ fault. IsJournalFault fault first ring) }
    {
        let subs = limits.subs();
        let journal = Journal::new(alloc, incarnation, first, ring)?;
        Ok(Content {
            alloc,
            held: Indexed::bounded(alloc, limits),
            pending: Mask::none(),
            journal,
            stamp: first,
            subscriptions: Subscriptions::new(subs as usize),
        })
    }

    /// Restarts as another incarnation: holds nothing, has no subscriptions, and keeps its first position, ring and
    /// limits. Takes no memory.
    pub fn restart(&mut self, incarnation: u64)
        ensures { (s : State) → ContentStands self.old s → ContentStands self.new (opening incarnation s.feed.first s.feed.ring s.limits) }
    {
        let limits = self.held.held().limits();
        let _cursor = self.journal.cursor();
        self.journal.restart(incarnation);
        self.held = Indexed::bounded(self.alloc, limits);
        self.pending = Mask::none();
        self.stamp = self.journal.first();
        self.subscriptions = Subscriptions::new(limits.subs() as usize);
    }

    /// Returns what is held.
    pub fn held(&self) -> &Held
        ensures items { held_items result.now ≡ self.now.held }
        ensures limits { result.now.limits ≡ self.now.limits }
        ensures sound { IsSound result.now }
        ensures stood { (s : State) × ContentStands self.now s }
    {
        self.held.held()
    }

    /// Returns the change held for a key, or `None` if none is.
    pub fn get(&self, key: &Key) -> Option<&Change>
        ensures value { option_copied result ≡ held_at self.now.held key.now }
        ensures change { IfSome (option_copied result) IsChange }
    {
        self.held.held().get(key)
    }

    /// Searches for a key's change: `Ok` is its index in key order, `Err` the index at which it would be inserted.
    /// Calls that take a place don't search again.
    pub fn place(&self, key: &Key) -> Result<usize, usize>
        ensures { IsPlace (changes_in self.now.held) key.now result }
    {
        self.held.held().place(key)
    }

    /// Returns the change held for the key with this place, or `None` if none is.
    pub fn get_at(&self, place: Result<usize, usize>) -> Option<&Change>
        ensures value { (key : Key) → IsPlace (changes_in self.now.held) key place → option_copied result ≡ held_at self.now.held key }
        ensures change { IfSome (option_copied result) IsChange }
    {
        match self.held.marked().get_at(place) {
            Some((change, _)) => Some(change),
            None => None,
        }
    }

    /// Returns whether a held floor makes the change void.
    pub fn is_void(&self, change: &Change) -> bool
        ensures { result ≡ is_void self.now.held change.now }
    {
        self.held.held().is_void(change)
    }

    /// Returns how many keys are held, tombstones included.
    pub fn count(&self) -> usize
        ensures count { result ≡ length (changes_in self.now.held) }
        ensures few { result ≤ self.now.limits.keys }
    {
        self.held.held().len()
    }

    /// Returns how many owners have floors, at most 64.
    pub fn floor_count(&self) -> usize
        ensures count { result ≡ length (floors_in self.now.held) }
        ensures few { result ≤ 64 }
    {
        self.held.held().floor_count()
    }

    /// Searches for an owner's floor: `Ok` is its index in name order, `Err` the index at which it would be inserted.
    /// Calls that take a floor's place don't search again.
    pub fn floor_place(&self, owner: &Name) -> Result<usize, usize>
        ensures { IsFloorPlace (floors_in self.now.held) owner.now result }
    {
        self.held.held().floor_place(owner)
    }

    /// Returns the generation of the floor of the owner with this place, or `None` if the owner has none.
    pub fn floor_at(&self, place: Result<usize, usize>) -> Option<Generation>
        ensures { (owner : List ℕ) → IsFloorPlace (floors_in self.now.held) owner place
            → result ≡ option_map (λ (f : Floor). f.generation) (floor_at self.now.held owner) }
    {
        let held = self.held.held();
        let Ok(index) = place else {
            return None;
        };
        let floor = held.floor_at(index)?;
        Some(floor.generation)
    }

    /// Returns the generation of an owner's floor, or `None` if the owner has none.
    pub fn floor(&self, owner: &Name) -> Option<Generation>
        ensures { result ≡ option_map (λ (f : Floor). f.generation) (floor_at self.now.held owner.now) }
    {
        self.held.held().floor(owner)
    }

    /// Returns the store's limits.
    pub fn limits(&self) -> Limits
        ensures { result ≡ self.now.limits }
    {
        self.held.held().limits()
    }

    /// Returns the cursor after everything that took effect.
    pub fn cursor(&self) -> Cursor
        ensures value { result ≡ cursor_of self.now.journal }
        ensures limit { result.position ≤ last_place }
        ensures stood { (s : State) × ContentStands self.now s }
    {
        self.journal.cursor()
    }

    /// Returns the last stamp taken.
    pub fn stamp(&self) -> u64
        ensures value { result ≡ self.now.stamp }
        ensures limit { result ≤ last_place }
    {
        self.stamp
    }

    /// Returns the stamp of a subscription's last Subscribe or Check, or `None` if there is no such subscription.
    pub fn stamp_of(&self, sub: u32) -> Option<u64>
        ensures { result ≡ option_map (λ (f : Followed). f.stamp) (slice_index_or self.now.subscriptions sub None) }
    {
        if sub >= self.held.held().limits().subs() {
            return None;
        }
        match self.subscriptions.get(sub as usize) {
            Some(subscription) => Some(subscription.stamp()),
            None => None,
        }
    }
}
