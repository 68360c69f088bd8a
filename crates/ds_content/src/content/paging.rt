//! Pages of what is held.

ghost use Rattle.std.specs.Prelude.{◌≡◌, ◌≢◌, ◌<◌, ◌++◌, [], true, cond, drop, map, take, length, nat_le, is_none, IfOk, OnOk, OnErr};
ghost use Rattle.std.specs.Option.{option_copied};
ghost use Rattle.ds_entry.specs.Item.{passes};
ghost use Rattle.ds_held.specs.Held.{change_item, held_changes, held_floors};
ghost use Rattle.ds_held.specs.Kept.{floored};
ghost use Rattle.ds_content.specs.Paging.{admitted, items_from, more_after, given_items};
ghost use Rattle.ds_content.specs.Stands.{InEachState};
ghost use Rattle.ds_content.specs.Given.{content_page, state_page};

use crate::content::Content;
use ds_entry::{Change, Item, Items};
use ds_feed::{KeyScope, Page};
use ds_held::Held;
use ds_names::{Key, NoRoom};
use std::alloc::Global;

// Returns all held floors for the first page, and nothing for a later one.
fn first_floors(alloc: Global, held: &Held, first: bool) -> Result<Items, NoRoom>
    ensures value { IfOk result (λ items. items ≡ cond first (map floored (held_floors held.now)) []) }
    ensures lacks { OnErr result (cond first (map floored (held_floors held.now)) [] ≢ []) }
{
    let mut items = Items::new(alloc);
    if !first {
        return Ok(items);
    }
    let _floors = held.floor_count();
    let mut index = 0;
    while let Some(floor) = held.floor_at(index) {
        items.push(Item::Floor(floor))?;
        index += 1;
    }
    Ok(items)
}

// Appends the change if it is under the scope, and returns how many more fit, or `None` if it is under the scope and
// doesn't fit.
fn add_change<S: KeyScope>(
    alloc: Global,
    scope: &mut S,
    change: &Change,
    items: &mut Items,
    left: u32,
) -> Result<Option<u32>, NoRoom>
    ensures more { IfOk result (λ more. more ≡ more_after (S.keeps scope.old change.now.key) left) }
    ensures added { OnOk result (items.new ≡ items.old ++ given_items (S.keeps scope.old change.now.key) left change.now) }
    ensures lacks { OnErr result ((S.keeps scope.old change.now.key ≡ true) × (0 < left)) }
    ensures scope { S.keeps scope.new ≡ S.keeps scope.old }
{
    if !scope.admits(change.key()) {
        return Ok(Some(left));
    }
    if left == 0 {
        return Ok(None);
    }
    items.push(Item::Change(change.copy(alloc)?))?;
    Ok(Some(left - 1))
}

// Appends the first `max` changes under the scope, of those at the index `first` and after it, and returns whether they
// were all.
fn add_changes<S: KeyScope>(
    alloc: Global,
    held: &Held,
    first: usize,
    scope: &mut S,
    max: u32,
    items: &mut Items,
) -> Result<bool, NoRoom>
    ensures added { OnOk result (items.new ≡ items.old ++ items_from (S.keeps scope.old) first max (held_changes held.now)) }
    ensures lacks { OnErr result (items_from (S.keeps scope.old) first max (held_changes held.now) ≢ []) }
    ensures last { IfOk result (λ last. last ≡ nat_le (length (admitted (S.keeps scope.old) (drop first (held_changes held.now)))) max) }
    ensures scope { S.keeps scope.new ≡ S.keeps scope.old }
{
    let _count = held.len();
    let mut left = max;
    let mut index = first;
    while let Some(change) = held.at(index) {
        match add_change(alloc, scope, change, items, left)? {
            Some(more) => left = more,
            None => return Ok(false),
        }
        index += 1;
    }
    Ok(true)
}

impl Content {
    /// Returns the first `max` changes after the key that are held under the scope, in key order; without a key, all
    /// floors come first. The page says whether it is the last, and has the cursor after everything that took effect.
    /// One binary search finds its start. Fails only if memory runs out for an item that it would return.
    pub fn page<S: KeyScope>(
        &self,
        scope: &mut S,
        after: Option<Key>,
        max: u32,
    ) -> Result<Page, NoRoom>
        ensures given { IfOk result (λ page. page ≡ content_page self.now (passes (S.keeps scope.old)) after max) }
        ensures stands { InEachState self.now (λ s. IfOk result (λ page. page ≡ state_page s (passes (S.keeps scope.old)) after max)) }
        ensures lacks { InEachState self.now (λ s. OnErr result ((state_page s (passes (S.keeps scope.old)) after max).items ≢ [])) }
        ensures scope { S.keeps scope.new ≡ S.keeps scope.old }
    {
        let held = self.held.held();
        let mut items = first_floors(self.alloc, held, after.is_none())?;
        let first = held.begin_after(after.as_ref());
        let last = add_changes(self.alloc, held, first, scope, max, &mut items)?;
        Ok(Page {
            items,
            last,
            cursor: self.journal.cursor(),
        })
    }
}
