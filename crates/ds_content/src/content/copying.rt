//! Copies of what is held.

ghost use Rattle.std.specs.Prelude.{◌≡◌, ◌≢◌, ◌≤◌, [], None, filter, is_some, length, slice_get, IfOk, OnOk, OnErr};
ghost use Rattle.ds_entry.specs.Item.{passes};
ghost use Rattle.ds_entry.specs.Lent.{item_lent};
ghost use Rattle.ds_held.specs.Held.{held_items};
ghost use Rattle.ds_content.specs.Shown.{IsItemAdded, IsItemUnder};

use ds_entry::{Item, ItemRef, Items};
use ds_feed::KeyScope;
use ds_held::Held;
use ds_names::NoRoom;
use std::alloc::Global;

/// Returns a copy of the item at the index (floors first, then changes in key order), or `None` past the end.
pub(super) fn copy_at(alloc: Global, held: &Held, index: usize) -> Result<Option<Item>, NoRoom>
    ensures { IfOk result (λ item. item ≡ slice_get (held_items held.now) index) }
{
    match held.item_at(index) {
        Some(item) => Ok(Some(item.copy(alloc)?)),
        None => Ok(None),
    }
}

// Returns whether the item is under the scope. A floor always is.
fn admits<S: KeyScope>(scope: &mut S, item: ItemRef<'_>) -> bool
    ensures answer { result ≡ passes (S.keeps scope.old) (item_lent item.entry) }
    ensures scope { S.keeps scope.new ≡ S.keeps scope.old }
{
    match item {
        ItemRef::Change(change) => scope.admits(change.key()),
        ItemRef::Floor(_) => true,
    }
}

// Appends a copy of the item at the index if it is under the scope, and returns whether there is such an item.
fn add_at<S: KeyScope>(
    alloc: Global,
    held: &Held,
    index: usize,
    scope: &mut S,
    items: &mut Items,
) -> Result<bool, NoRoom>
    ensures there { IfOk result (λ there. there ≡ is_some (slice_get (held_items held.now) index)) }
    ensures added { OnOk result (IsItemAdded held.now index (passes (S.keeps scope.old)) items.old items.new) }
    ensures same { OnOk result (slice_get (held_items held.now) index ≡ None → items.new ≡ items.old) }
    ensures lacks { OnErr result (IsItemUnder held.now index (passes (S.keeps scope.old))) }
    ensures scope { S.keeps scope.new ≡ S.keeps scope.old }
{
    let Some(item) = held.item_at(index) else {
        return Ok(false);
    };
    if admits(scope, item) {
        items.push(item.copy(alloc)?)?;
    }
    Ok(true)
}

// For the prover alone: at most 4,096 changes and 64 floors are held.
pub(super) fn few_items_proof(held: &Held)
    ensures { length (held_items held.now) ≤ 4160 }
{
    let _keys = held.limits().keys();
    let _count = held.len();
    let _floors = held.floor_count();
}

/// Returns everything held under the scope, floors first, then changes in key order. Fails only if memory runs out for
/// an item that it would return.
pub(super) fn all_under<S: KeyScope>(
    alloc: Global,
    held: &Held,
    scope: &mut S,
) -> Result<Items, NoRoom>
    ensures items { IfOk result (λ items. items ≡ filter (passes (S.keeps scope.old)) (held_items held.now)) }
    ensures lacks { OnErr result (filter (passes (S.keeps scope.old)) (held_items held.now) ≢ []) }
    ensures scope { S.keeps scope.new ≡ S.keeps scope.old }
{
    few_items_proof(held);
    let mut items = Items::new(alloc);
    let mut index = 0;
    while add_at(alloc, held, index, scope, &mut items)? {
        index += 1;
    }
    Ok(items)
}
