//! Holders of changes and floors.

ghost use Rattle.std.specs.Prelude.{◌≡◌, ◌≢◌, ◌≤◌, ◌++◌, ◌∷◌};
ghost use Rattle.std.specs.Prelude.{[], All, IfOk, IfErr, IfSome, OnOk, OnErr, drop, filter, option_and_then, slice_get, take};
ghost use Rattle.std.specs.Option.{option_copied, option_map};
ghost use Rattle.std.specs.List.{find};
ghost use Rattle.ds_entry.specs.Change.{IsChange, IsValue};
ghost use Rattle.ds_entry.specs.Lent.{item_lent};
ghost use Rattle.ds_entry.specs.declared.item.Item.TheVariants.{Change as Changed, Floor as Floored};
ghost use Rattle.ds_join.specs.Reading.{comes_after};
ghost use Rattle.ds_join.specs.ItemTop.{IsTop};
ghost use Rattle.ds_join.specs.ItemJoin.{IsJoin};
ghost use Rattle.ds_held.specs.Held.{held_changes, held_items, held_floors, held_for, held_count};
ghost use Rattle.ds_held.specs.Held.{floor_for, floor_count, is_void_at, nothing_held, IsSound};
ghost use Rattle.ds_held.specs.Join.{AreMerged, IsJoinStopped};
ghost use Rattle.ds_held.specs.Limits.{larger};
ghost use Rattle.ds_held.specs.Merge.{after_merge, IsMergeRefused, MergeAnswer};
ghost use Rattle.ds_held.specs.Raise.{after_raise, RaiseAnswer};
ghost use Rattle.ds_entry.specs.Left.{value_of};

use crate::floors::{floor_at, is_void, nth_floor, raise};
use crate::guesses::Guesses;
use crate::join::join_into;
use crate::limits::Limits;
use crate::order::{begin_after, change_at, first_of};
use crate::reading::{copy_all, item_at};
use crate::rows::Rows;
use crate::void::drop_void;
use ds_entry::{Body, Change, Floor, ItemRef, Items, Value};
use ds_join::{JoinFault, Merge, Stop};
use ds_names::{Generation, Key, Name, NoRoom};
use std::alloc::Global;
use std::marker::Model;

mod beside;
mod merging;

/// What a holder keeps: of each owner the greatest floor, and of each key the change with the greatest version that
/// isn't void, tombstones included. It has at most 64 floors, and as many keys as its limits allow.
///
/// While a floor of an owner is held, nothing from the owner's generations up to it is held but labels, and no call
/// brings it back. So what a dropped tombstone had deleted stays deleted.
#[derive(Drop)]
pub struct Held {
    floors: Vec<Floor>,
    changes: Rows<Change>,
    guesses: Guesses,
    limits: Limits,
}

impl Model for Held {
    ghost use Rattle.ds_held.specs.Held.{Holding};
    ghost use Rattle.ds_held.specs.Coded.{holding_code};

    ghost Value = { Holding };

    ghost coded = { holding_code };

    ghost use Rattle.ds_held.specs.Kept.{holding_of, AreKept};

    ghost view = { λ h. holding_of h.floors.items h.changes h.limits };

    ghost invariant = { λ h. AreKept h.floors.items h.changes h.limits };
}

impl Held {
    /// Returns an empty holder, for up to 4096 keys. It allocates nothing.
    pub fn new(alloc: Global) -> Held
        ensures { result ≡ nothing_held larger }
    {
        Held::bounded(alloc, Limits::larger())
    }

    /// Returns an empty holder with these limits. It allocates nothing.
    pub fn bounded(alloc: Global, limits: Limits) -> Held
        ensures { result ≡ nothing_held limits }
    {
        Held {
            floors: Vec::new(alloc),
            changes: Rows::new(alloc),
            guesses: Guesses::new(alloc),
            limits,
        }
    }

    /// Removes everything, tombstones and floors too, and keeps the limits. It allocates nothing.
    pub fn clear(&mut self)
        ensures value { self.new ≡ nothing_held self.old.limits }
        ensures sound { IsSound self.new }
    {
        self.floors.clear();
        self.changes.clear();
    }

    /// Returns how many keys are held, those of tombstones included. Floors aren't counted.
    pub fn len(&self) -> usize
        ensures count { result ≡ held_count self.now }
        ensures few { result ≤ self.now.limits.keys }
        ensures sound { IsSound self.now }
        ensures changes { All IsChange (held_changes self.now) }
    {
        self.changes.len()
    }

    /// Returns its limits.
    pub fn limits(&self) -> Limits
        ensures { result ≡ self.now.limits }
    {
        self.limits
    }

    /// Returns the generation of an owner's floor, or `None` if the owner has none.
    pub fn floor(&self, owner: &Name) -> Option<Generation>
        ensures value { result ≡ floor_for self.now owner.now }
        ensures sound { IsSound self.now }
    {
        floor_at(&self.floors, owner)
    }

    /// Returns how many owners have floors, at most 64.
    pub fn floor_count(&self) -> usize
        ensures count { result ≡ floor_count self.now }
        ensures few { result ≤ 64 }
        ensures sound { IsSound self.now }
    {
        self.floors.len()
    }

    /// Returns the floor at an index from 0, in the order of the owners' names; `None` past the end.
    pub fn floor_at(&self, index: usize) -> Option<Floor>
        ensures { result ≡ slice_get (held_floors self.now) index }
    {
        nth_floor(&self.floors, index)
    }

    /// Whether the floor of its owner voids the change.
    pub fn is_void(&self, change: &Change) -> bool
        ensures { result ≡ is_void_at self.now change.now }
    {
        is_void(&self.floors, change)
    }

    /// Returns the change that is held for a key, or `None` if none is.
    pub fn get(&self, key: &Key) -> Option<&Change>
        ensures value { option_copied result ≡ held_for self.now key.now }
        ensures sound { IsSound self.now }
        ensures change { IfSome (option_copied result) IsChange }
    {
        change_at(&self.changes, self.guesses.slot_of(key), key)
    }

    /// Returns the value under a key. A tombstone has none.
    pub fn live(&self, key: &Key) -> Option<&Value>
        ensures value { option_copied result ≡ option_and_then value_of (held_for self.now key.now) }
        ensures valid { IfSome (option_copied result) IsValue }
    {
        match self.get(key)?.body() {
            Body::Put(value) => Some(value),
            Body::Gone => None,
        }
    }

    /// Returns the change at an index from 0, in the order of the keys; `None` past the end.
    pub fn at(&self, index: usize) -> Option<&Change>
        ensures value { option_copied result ≡ slice_get (held_changes self.now) index }
        ensures change { IfSome (option_copied result) IsChange }
    {
        self.changes.get(index)
    }

    /// Returns the change of the least key, or of the least key after `after`; `None` if there is no such key.
    pub fn first_after(&self, after: Option<&Key>) -> Option<&Change>
        ensures value { option_copied result ≡ find (comes_after (option_copied after.entry)) (held_changes self.now) }
        ensures change { IfSome (option_copied result) IsChange }
    {
        first_of(&self.changes, after)
    }

    /// Returns the index, in the order of the keys, from which on the changes are those of the keys after `after`; 0 if
    /// `after` is `None`. One search finds it.
    pub fn begin_after(&self, after: Option<&Key>) -> usize
        ensures within { result ≤ held_count self.now }
        ensures begin { drop result (held_changes self.now) ≡ filter (comes_after (option_copied after.entry)) (held_changes self.now) }
    {
        begin_after(&self.changes, after)
    }

    /// Returns the item at an index from 0; `None` past the end. Floors come first, in the order of their owners'
    /// names, then changes in the order of their keys.
    pub fn item_at(&self, index: usize) -> Option<ItemRef<'_>>
        ensures { option_map item_lent result ≡ slice_get (held_items self.now) index }
    {
        item_at(&self.floors, &self.changes, index)
    }

    /// Returns copies of all items: the floors by their owners' names, then the changes by their keys. Where nothing is
    /// held, it takes no memory.
    pub fn all(&self, alloc: Global) -> Result<Items, NoRoom>
        ensures value { IfOk result (λ items. items ≡ held_items self.now) }
        ensures room { OnErr result (held_items self.now ≢ []) }
        ensures changes { All IsChange (held_changes self.now) }
    {
        copy_all(alloc, &self.floors, &self.changes)
    }

    /// Merges a change: it is taken unless a held change or floor covers it. Unless it is refused, what is held
    /// afterwards is the join of what was held and the change.
    ///
    /// Refuses with the first [`JoinFault`] that applies, in the order of its variants, and then changes nothing. A
    /// void change is Stale: only NotOwner comes before that. A change of a held key replaces the held one and
    /// allocates nothing; nor does a void change.
    pub fn merge(&mut self, change: Change) -> Result<Merge, JoinFault>
        ensures answer { MergeAnswer self.old change result }
        ensures after { self.new ≡ after_merge self.old change result }
        ensures joined { OnOk result (IsTop (held_items self.new) (held_items self.old ++ Changed change ∷ [])) }
        ensures sound { IsSound self.new }
        ensures change { IsChange change }
    {
        let place = self.place(change.key());
        match self.outlook(place, &change) {
            Ok(Merge::Taken) => self.take(place, change),
            answer => answer,
        }
    }

    /// Like `merge`, for a borrowed change. It is copied only to be taken, so a change that is known, stale or
    /// refused allocates nothing.
    pub fn merge_copy(&mut self, alloc: Global, change: &Change) -> Result<Merge, JoinFault>
        ensures answer { OnOk result (MergeAnswer self.old change.now result) }
        ensures refused { IfErr result (IsMergeRefused self.old change.now) }
        ensures after { self.new ≡ after_merge self.old change.now result }
        ensures joined { OnOk result (IsTop (held_items self.new) (held_items self.old ++ Changed change.now ∷ [])) }
        ensures sound { IsSound self.new }
    {
        let place = self.place(change.key());
        match self.outlook(place, change) {
            Ok(Merge::Taken) => match change.copy(alloc) {
                Ok(copy) => self.take(place, copy),
                Err(NoRoom) => Err(JoinFault::NoRoom),
            },
            answer => answer,
        }
    }

    /// Raises the floor of an owner, and drops what the floor voids, tombstones included. Unless it is refused, what
    /// is held afterwards is the join of what was held and the floor.
    ///
    /// The same floor again is Known, a lower one Stale. Full if the owner has no floor and 64 others have one. It
    /// allocates only for an owner without a floor. A refusal changes nothing.
    pub fn raise(&mut self, floor: Floor) -> Result<Merge, JoinFault>
        ensures answer { RaiseAnswer self.old floor result }
        ensures after { self.new ≡ after_raise self.old floor result }
        ensures joined { OnOk result (IsTop (held_items self.new) (held_items self.old ++ Floored floor ∷ [])) }
        ensures sound { IsSound self.new }
    {
        match raise(&mut self.floors, floor) {
            Ok(Merge::Taken) => {
                drop_void(&mut self.changes, &floor);
                Ok(Merge::Taken)
            }
            answer => answer,
        }
    }

    /// Joins with another holder: raises its floors, by their owners' names, then merges its changes, by their keys.
    /// It stops at the first item that is refused.
    ///
    /// Stale and known items count as done. `Ok` leaves the join of both.
    pub fn join(&mut self, alloc: Global, other: &Held) -> Result<(), Stop>
        ensures joined { OnOk result (IsJoin (held_items self.new) (held_items self.old) (held_items other.now)) }
        ensures each { OnOk result (AreMerged self.old (held_items other.now) self.new) }
        ensures stopped { IfErr result (IsJoinStopped self.old (held_items other.now) self.new) }
        ensures kept { IfErr result (λ stop. IsTop (held_items self.new) (held_items self.old ++ take stop.done (held_items other.now))) }
        ensures sound { IsSound self.new }
    {
        let _most = other.limits.keys();
        let _count = self.len();
        join_into(alloc, self, &other.floors, &other.changes)
    }
}
