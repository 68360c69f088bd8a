//! What is held, item by item, and copies of all of it.

ghost use Rattle.std.specs.Prelude.{◌≡◌, ◌≢◌, ◌++◌, [], map, slice_get, IfOk, OnOk, OnErr};
ghost use Rattle.std.specs.Option.{option_map};
ghost use Rattle.ds_entry.specs.Lent.{item_lent};
ghost use Rattle.ds_held.specs.Held.{change_item};
ghost use Rattle.ds_held.specs.Kept.{floored};

use crate::rows::Rows;
use ds_entry::{Change, Floor, Item, ItemRef, Items};
use ds_names::NoRoom;
use std::alloc::Global;

// Returns the item at an index, floors first.
pub(crate) fn item_at<'a>(
    floors: &'a [Floor],
    changes: &'a Rows<Change>,
    index: usize,
) -> Option<ItemRef<'a>>
    ensures { option_map item_lent result ≡ slice_get (map floored floors.now ++ map change_item changes.now) index }
{
    if index < floors.len() {
        return Some(ItemRef::Floor(&floors[index]));
    }
    match changes.get(index - floors.len()) {
        Some(change) => Some(ItemRef::Change(change)),
        None => None,
    }
}

// Appends the floors to a list of items.
fn add_floors(items: &mut Items, floors: &[Floor]) -> Result<(), NoRoom>
    ensures added { OnOk result (items.new ≡ items.old ++ map floored floors.now) }
    ensures room { OnErr result (floors.now ≢ []) }
{
    for floor in floors {
        items.push(Item::Floor(*floor))?;
    }
    Ok(())
}

// Appends copies of the changes to a list of items.
fn add_changes(alloc: Global, items: &mut Items, changes: &Rows<Change>) -> Result<(), NoRoom>
    ensures added { OnOk result (items.new ≡ items.old ++ map change_item changes.now) }
    ensures room { OnErr result (changes.now ≢ []) }
{
    for i in 0..changes.len() {
        let change = changes.at(i);
        let Ok(copy) = change.copy(alloc) else {
            return Err(NoRoom);
        };
        items.push(Item::Change(copy))?;
    }
    Ok(())
}

// Returns copies of all items, floors first. Copies of nothing take no memory.
pub(crate) fn copy_all(
    alloc: Global,
    floors: &[Floor],
    changes: &Rows<Change>,
) -> Result<Items, NoRoom>
    ensures same { IfOk result (λ items. items ≡ map floored floors.now ++ map change_item changes.now) }
    ensures room { OnErr result (map floored floors.now ++ map change_item changes.now ≢ []) }
{
    let mut items = Items::new(alloc);
    add_floors(&mut items, floors)?;
    add_changes(alloc, &mut items, changes)?;
    Ok(items)
}
