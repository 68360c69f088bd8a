//! Items.

ghost use Rattle.std.specs.Prelude.{◌≡◌, IfOk, IsOk, OnErr};
ghost use Rattle.std.specs.Ordering.{eq_by_cmp};
ghost use Rattle.ds_names.specs.Key.{key_cmp};
ghost use Rattle.ds_entry.specs.Covers.{covers as change_covers};
ghost use Rattle.ds_entry.specs.Item.{IsItem, IsItemInPlace, ItemCopyTakesMemory, item_cmp};
ghost use Rattle.ds_entry.specs.Left.{is_put};
ghost use Rattle.ds_entry.specs.Lent.{item_lent};
ghost use Rattle.ds_entry.specs.ItemCovers.{covers};

use crate::change::Change;
use crate::floor::{Floor, is_same_name};
use ds_names::{Key, NoRoom};
use std::alloc::Global;
use std::cmp::Ordering;

/// What replicas send each other: a change of one entry, or a floor under all entries of an owner.
#[derive(Debug, PartialEq, Eq, Drop)]
pub enum Item {
    Change(Change),
    Floor(Floor),
}

/// A borrowed item.
#[derive(Clone, Copy)]
pub enum ItemRef<'a> {
    Change(&'a Change),
    Floor(&'a Floor),
}

impl ItemRef<'_> {
    /// Copies the item. Fails only if memory runs out; only the copy of a text or a blob that isn't empty takes memory.
    pub fn copy(self, alloc: Global) -> Result<Item, NoRoom>
        ensures same { IfOk result (λ item. item ≡ item_lent self.entry) }
        ensures in_place { IsItemInPlace (item_lent self.entry) → IsOk result }
        ensures room { OnErr result (ItemCopyTakesMemory (item_lent self.entry)) }
    {
        match self {
            ItemRef::Change(change) => Ok(Item::Change(change.copy(alloc)?)),
            ItemRef::Floor(floor) => Ok(Item::Floor(*floor)),
        }
    }
}

impl Item {
    /// Returns whether the item covers the other one, which is then needless.
    ///
    /// A change covers the changes of its key and owner up to its version. A floor covers the changes that it voids,
    /// and its owner's floors up to its generation. A change covers no floor.
    pub fn covers(&self, other: &Item) -> bool
        ensures { result ≡ covers self.now other.now }
    {
        match (self, other) {
            (Item::Change(change), Item::Change(other)) => is_newer(change, other),
            (Item::Change(_), Item::Floor(_)) => false,
            (Item::Floor(floor), Item::Change(change)) => floor.voids(change),
            (Item::Floor(floor), Item::Floor(other)) => {
                let most = floor.generation.number();
                is_same_name(&other.owner, &floor.owner) && other.generation.number() <= most
            }
        }
    }

    /// Returns whether the item is a put. Tombstones and floors aren't.
    pub fn is_put(&self) -> bool
        ensures { result ≡ is_put self.now }
    {
        match self {
            Item::Change(change) => change.body().value().is_some(),
            Item::Floor(_) => false,
        }
    }

    /// Compares two items. Floors come before changes. Floors are in the order of their owners' names, and changes in the
    /// order of their keys.
    pub fn compare(&self, other: &Item) -> Ordering
        ensures { result ≡ item_cmp self.now other.now }
    {
        match (self, other) {
            (Item::Change(change), Item::Change(other)) => change.key().compare(other.key()),
            (Item::Change(_), Item::Floor(_)) => Ordering::Greater,
            (Item::Floor(_), Item::Change(_)) => Ordering::Less,
            (Item::Floor(floor), Item::Floor(other)) => floor.owner.cmp(&other.owner),
        }
    }

    /// Copies the item. Fails only if memory runs out; only the copy of a text or a blob that isn't empty takes memory.
    #[inline(always)]
    pub fn copy(&self, alloc: Global) -> Result<Item, NoRoom>
        ensures same { IfOk result (λ item. item ≡ self.now) }
        ensures in_place { IsItemInPlace self.now → IsOk result }
        ensures room { OnErr result (ItemCopyTakesMemory self.now) }
        ensures item { IsItem self.now }
    {
        match self {
            Item::Change(change) => Ok(Item::Change(change.copy(alloc)?)),
            Item::Floor(floor) => Ok(Item::Floor(floor.in_range())),
        }
    }
}

// Returns whether two keys are equal.
fn is_same_key(key: &Key, other: &Key) -> bool
    ensures { result ≡ eq_by_cmp key_cmp key.now other.now }
{
    matches!(key.compare(other), Ordering::Equal)
}

// Returns whether the change has the other's key and owner, and a version at least as great.
fn is_newer(change: &Change, other: &Change) -> bool
    ensures { result ≡ change_covers change.now other.now }
{
    let version = change.version();
    is_same_key(other.key(), change.key())
        && is_same_name(other.owner(), change.owner())
        && !matches!(other.version().compare(&version), Ordering::Greater)
}
