//! What is shown to subscriptions.

ghost use Rattle.std.specs.Prelude.{◌≡◌, ◌<◌, ◌++◌, None, true, is_some, take, slice_get, slice_index_or, IfOk, OnOk, OnErr};
ghost use Rattle.std.specs.List.{list_any};
ghost use Rattle.ds_machine.specs.State.{subscribes, unseen};
ghost use Rattle.ds_machine.specs.Watching.{has_unseen};
ghost use Rattle.ds_held.specs.Held.{held_items};
ghost use Rattle.ds_content.specs.Shown.{AreUnseen, AreFirst, IsItemAdded, IsRest, IsRestOf, is_to_show};
ghost use Rattle.ds_content.specs.Kept.{ArePending};
ghost use Rattle.ds_content.specs.Stands.{ContentStands, InEachWith};
ghost use Rattle.ds_names.specs.Limits.{last_place};

use crate::content::Content;
use crate::content::copying::{copy_at, few_items_proof};
use crate::content::marking::{next_unseen, show_first};
use ds_entry::Items;
use ds_held::Held;
use ds_index::Marked;
use ds_names::NoRoom;
use ds_watch::{Mask, Masks};
use std::alloc::Global;

/// The items to show, how many held items were passed, from the first on, to find the last of them, and whether more
/// may be to be shown after it.
#[derive(Drop)]
pub struct Shown {
    pub items: Items,
    pub passed: usize,
    pub more: bool,
}

// Appends a copy of the held item at the index.
fn add_copy(alloc: Global, items: &mut Items, held: &Held, index: usize) -> Result<(), NoRoom>
    ensures { OnOk result (IsItemAdded held.now index (λ i. true) items.old items.new) }
{
    let Some(item) = copy_at(alloc, held, index)? else {
        return Ok(());
    };
    items.push(item)?;
    Ok(())
}

// Returns the first `max` held items to show to subscription `sub`. It looks for none if the subscription isn't pending.
fn first_unseen(
    alloc: Global,
    held: &Marked<Masks>,
    pending: Mask,
    sub: usize,
    max: usize,
) -> Result<Shown, NoRoom>
    requires place { sub < 128 }
    requires pending { ArePending held.now pending }
    ensures first { IfOk result (λ shown. AreFirst held.now sub max shown.items shown.passed) }
    ensures rest { IfOk result (λ shown. IsRestOf held.now sub shown.passed shown.more) }
    ensures refused { OnErr result (list_any (is_to_show held.now sub) (held_items held.now.held) ≡ true) }
{
    if !Masks::fresh(pending).is_unseen(sub) {
        return Ok(Shown {
            items: Items::new(alloc),
            passed: 0,
            more: false,
        });
    }
    let content = held.held();
    few_items_proof(content);
    let mut items = Items::new(alloc);
    let mut passed = 0;
    while items.len() < max {
        let Some(index) = next_unseen(held, passed, sub) else {
            return Ok(Shown {
                items,
                passed,
                more: false,
            });
        };
        add_copy(alloc, &mut items, content, index)?;
        passed = index + 1;
    }
    Ok(Shown {
        items,
        passed,
        more: true,
    })
}

impl Content {
    /// Returns the first `max` held items still to be shown to subscription `sub`, floors first, then changes in key
    /// order. Only these take memory, so NoRoom means that there is something to show. If everything was shown, it ends
    /// at once.
    pub fn first_unseen(&self, sub: u32, max: u32) -> Result<Shown, NoRoom>
        requires { sub < self.now.limits.subs }
        ensures unseen { IfOk result (λ shown. AreUnseen self.now sub shown.items shown.passed) }
        ensures rest { IfOk result (λ shown. IsRest self.now sub shown.passed shown.more) }
        ensures first { InEachWith self.now sub (λ s x. IfOk result (λ shown. shown.items ≡ take max (unseen s x))) }
        ensures refused { InEachWith self.now sub (λ s x. OnErr result (has_unseen s x ≡ true)) }
    {
        let _held = self.held.held();
        first_unseen(
            self.alloc,
            self.held.marked(),
            self.pending,
            sub as usize,
            max as usize,
        )
    }

    /// Marks the items as shown to subscription `sub`, which takes the next stamp. Takes no memory.
    pub fn show(&mut self, sub: u32, shown: &Shown)
        requires made { is_some (slice_index_or self.old.subscriptions sub None) ≡ true }
        requires unseen { AreUnseen self.old sub shown.now.items shown.now.passed }
        requires rest { IsRest self.old sub shown.now.passed shown.now.more }
        requires room { self.old.stamp < last_place }
        ensures { InEachWith self.old sub (λ s x. ContentStands self.new (subscribes s sub x.query (x.shown ++ shown.now.items))) }
    {
        let _held = self.held.held();
        show_first(
            &mut self.held,
            shown.passed,
            shown.items.len(),
            sub as usize,
        );
        self.pending = self.pending.put(sub as usize, shown.more);
        self.stamp += 1;
        self.subscriptions.set_stamp(sub as usize, self.stamp);
    }
}
