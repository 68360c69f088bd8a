//! The masks of held items, for all subscriptions.

ghost use Rattle.std.specs.Prelude.{◌≡◌, ◌<◌, ◌≤◌, ◌&&◌, Some, None, length, map, filter, take, false, slice_get, slice_index_or, IfOk};
ghost use Rattle.std.specs.Option.{option_map};
ghost use Rattle.ds_entry.specs.declared.item.Item as items;
ghost use Rattle.ds_held.specs.Held.{held_items};
ghost use Rattle.ds_watch.specs.Masks.{shown_to, made_at};
ghost use Rattle.ds_content.specs.Kept.{masks_at};
ghost use Rattle.ds_content.specs.Marking.{IsSet, IsRemarked, AreRemarked};
ghost use Rattle.ds_content.specs.Shown.{says_unseen, is_to_show, IsNext, IsToShowHere};
ghost use Rattle.ds_pattern.specs.Under.{is_under};
ghost use Rattle.ds_entry.specs.Item.{passes};

use crate::content::copying::few_items_proof;
use ds_entry::ItemRef;
use ds_held::{Held, Rows};
use ds_index::{Indexed, Marked};
use ds_names::NoRoom;
use ds_pattern::{Asker, Filter};
use ds_watch::Masks;
use std::alloc::Global;

// Returns the masks of the floor at the index.
fn floor_masks(marks: &[Masks], index: usize) -> Option<Masks>
    ensures { result ≡ slice_get marks.now index }
{
    marks.get(index).copied()
}

// Returns the masks of the change at the index.
fn change_masks(marks: &Rows<Masks>, index: usize) -> Option<Masks>
    ensures { result ≡ slice_get marks.now index }
{
    marks.get(index).copied()
}

// Returns the masks of the item at the index, floors first, then changes in key order.
fn masks_of(held: &Marked<Masks>, index: usize) -> Option<Masks>
    ensures here { (i : items.Item) → slice_get (held_items held.now.held) index ≡ Some i → result ≡ masks_at held.now i }
    ensures none { slice_get (held_items held.now.held) index ≡ None → result ≡ None }
{
    let floors = held.floor_marks();
    if index < floors.len() {
        floor_masks(floors, index)
    } else {
        change_masks(held.marks(), index - floors.len())
    }
}

// Returns the index of the first masks at or after `from` whose floor is still to be shown to subscription `sub`.
fn next_floor(marks: &[Masks], from: usize, sub: usize) -> Option<usize>
    requires { sub < 128 }
    ensures { IsNext (says_unseen sub) marks.now from result }
{
    for index in from..marks.len() {
        if marks[index].is_unseen(sub) {
            return Some(index);
        }
    }
    None
}

// Returns the index of the first masks at or after `from` whose change is still to be shown to subscription `sub`.
fn next_change(marks: &Rows<Masks>, from: usize, sub: usize) -> Option<usize>
    requires { sub < 128 }
    ensures { IsNext (says_unseen sub) marks.now from result }
{
    for index in from..marks.len() {
        if marks.at(index).is_unseen(sub) {
            return Some(index);
        }
    }
    None
}

/// Returns the index of the first held item at or after `from` that is still to be shown to subscription `sub` (floors
/// first, then changes in key order). It reads only the masks, in order.
pub(super) fn next_unseen(held: &Marked<Masks>, from: usize, sub: usize) -> Option<usize>
    requires { sub < 128 }
    ensures { IsNext (is_to_show held.now sub) (held_items held.now.held) from result }
{
    few_items_proof(held.held());
    let floors = held.floor_marks();
    if let Some(index) = next_floor(floors, from, sub) {
        return Some(index);
    }
    let index = next_change(held.marks(), from.saturating_sub(floors.len()), sub)?;
    Some(floors.len() + index)
}

// Replaces the masks of the item at the index.
fn set_masks(held: &mut Indexed<Masks>, index: usize, masks: Masks)
    ensures { IsSet held.old held.new index masks }
{
    let _held = held.held();
    let floors = held.marked().floor_marks().len();
    if index < floors {
        held.set_floor_mark(index, masks);
    } else {
        held.set_mark(index - floors, masks);
    }
}

// Returns whether the item at the index is still to be shown to subscription `sub`.
fn is_unseen_at(held: &Marked<Masks>, index: usize, sub: usize) -> bool
    requires { sub < 128 }
    ensures { IsToShowHere held.now sub index result }
{
    match masks_of(held, index) {
        Some(masks) => masks.is_unseen(sub),
        None => false,
    }
}

// Marks the item at the index as shown to subscription `sub`.
fn show_one(held: &mut Indexed<Masks>, index: usize, sub: usize)
    requires { sub < 128 }
    ensures { IsRemarked held.old held.new index (shown_to sub) }
{
    if let Some(masks) = masks_of(held.marked(), index) {
        set_masks(held, index, masks.shown_to(sub));
    }
}

/// Marks the first `count` items as shown to subscription `sub`, of which `left` are still to be shown. It walks back
/// from the last of them, as far as to the first that is still to be shown. Takes no memory.
pub(super) fn show_first(held: &mut Indexed<Masks>, count: usize, mut left: usize, sub: usize)
    requires place { sub < 128 }
    requires left { left ≡ length (filter (is_to_show held.old sub) (take count (held_items held.old.held))) }
    ensures { AreRemarked held.old held.new count (λ k. shown_to sub) }
{
    let mut index = count;
    while left > 0 && index > 0 {
        index -= 1;
        if is_unseen_at(held.marked(), index, sub) {
            show_one(held, index, sub);
            left -= 1;
        }
    }
}

// Marks the item at the index for a new subscription `sub`, by whether it is under its query.
fn make_one(held: &mut Indexed<Masks>, index: usize, sub: usize, is_under: bool, initial: bool)
    requires { sub < 128 }
    ensures { IsRemarked held.old held.new index (made_at sub is_under initial) }
{
    if let Some(masks) = masks_of(held.marked(), index) {
        set_masks(held, index, masks.made_at(sub, is_under, initial));
    }
}

/// Marks the held items for a new subscription `sub`; the flags say which are under its query. Takes no memory.
pub(super) fn make_all(held: &mut Indexed<Masks>, sub: usize, flags: &[bool], initial: bool)
    requires { sub < 128 }
    ensures { AreRemarked held.old held.new (length flags.now) (λ k. made_at sub (slice_index_or flags.now k false) initial) }
{
    for index in 0..flags.len() {
        make_one(held, index, sub, flags[index], initial);
    }
}

// Returns whether the held item at the index is under the query. A floor always is.
fn is_under_at(held: &Held, asker: &mut Asker<'_>, index: usize) -> Option<bool>
    ensures told { result ≡ option_map (passes (is_under asker.old)) (slice_get (held_items held.now) index) }
    ensures same { asker.new ≡ asker.old }
{
    match held.item_at(index)? {
        ItemRef::Change(change) => Some(asker.admits(change.key())),
        ItemRef::Floor(_) => Some(true),
    }
}

/// Returns which held items are under the query, floors first, then changes in key order.
pub(super) fn flags_under(alloc: Global, held: &Held, filter: &Filter) -> Result<Vec<bool>, NoRoom>
    ensures { IfOk result (λ flags. flags.items ≡ map (passes (is_under filter.now)) (held_items held.now)) }
{
    let mut flags = Vec::with_capacity(alloc, held.len())?;
    let mut asker = filter.asker(alloc)?;
    while let Some(is_under) = is_under_at(held, &mut asker, flags.len()) {
        flags.push(is_under)?;
    }
    Ok(flags)
}
