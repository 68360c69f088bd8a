//! Lists of items.

ghost use Rattle.std.specs.Prelude.{◌≡◌, ◌≢◌, ◌≤◌, ◌++◌, ◌∷◌, [], length, take, drop, slice_get, OnOk, IfErr, OnErr, IfOk};
ghost use Rattle.ds_entry.specs.Under.{entries_of};
ghost use Rattle.std.specs.Option.{option_copied};

use crate::item::Item;
use ds_names::NoRoom;
use std::alloc::{AllocFailed, Global};
use std::marker::Model;

/// A list of items. Holders and stores return such lists, and messages carry them.
#[derive(Debug, Drop)]
pub struct Items {
    items: Vec<Item>,
}

impl Model for Items {
    ghost use Rattle.std.specs.Prelude.{List};
    ghost use Rattle.ds_entry.specs.declared.item.Item.{Item};

    ghost Value = { List Item };

    ghost view = { λ a. a.items.items };
}

impl Items {
    /// Returns an empty list. Takes no memory.
    pub fn new(alloc: Global) -> Items
        ensures { result ≡ [] }
    {
        Items {
            items: Vec::new(alloc),
        }
    }

    /// Returns a list of copies of the items. Fails only if memory runs out; copies of no items take none.
    pub fn copies(alloc: Global, items: &[Item]) -> Result<Items, NoRoom>
        ensures same { IfOk result (λ copies. copies ≡ items.now) }
        ensures room { OnErr result (items.now ≢ []) }
    {
        let mut copies = Vec::new(alloc);
        push_copies(alloc, &mut copies, items)?;
        Ok(Items { items: copies })
    }

    /// Appends an item. If memory runs out, the list is unchanged and the error hands the item back.
    pub fn push(&mut self, item: Item) -> Result<(), AllocFailed<Item>>
        ensures ok { OnOk result (self.new ≡ self.old ++ item ∷ []) }
        ensures err { OnErr result (self.new ≡ self.old) }
        ensures back { IfErr result (λ back. back.value ≡ item) }
    {
        self.items.push(item)
    }

    /// Splits the list at the index: keeps the items before it, and returns the rest. If memory runs out, the list is
    /// unchanged.
    pub fn split_off(&mut self, at: usize) -> Result<Items, NoRoom>
        requires { at ≤ length self.old }
        ensures kept { OnOk result (self.new ≡ take at self.old) }
        ensures rest { IfOk result (λ rest. rest ≡ drop at self.old) }
        ensures err { OnErr result (self.new ≡ self.old) }
    {
        let items = self.items.split_off(at)?;
        Ok(Items { items })
    }

    /// Returns the number of items.
    pub fn len(&self) -> usize
        ensures { result ≡ length self.now }
    {
        self.items.len()
    }

    /// Returns the item at an index from 0, or `None` past the end.
    pub fn get(&self, index: usize) -> Option<&Item>
        ensures { option_copied result ≡ slice_get self.now index }
    {
        self.items.get(index)
    }

    /// Returns all items as a slice.
    pub fn as_slice(&self) -> &[Item]
        ensures { result.now ≡ self.now }
    {
        self.items.as_slice()
    }

    /// Appends copies of other items. If memory runs out, the list is unchanged. An empty `more` takes no memory.
    pub fn append_copies(&mut self, alloc: Global, more: &Items) -> Result<(), NoRoom>
        ensures added { OnOk result (self.new ≡ self.old ++ more.now) }
        ensures unchanged { OnErr result (self.new ≡ self.old) }
        ensures room { OnErr result (more.now ≢ []) }
    {
        let start = self.items.len();
        let copied = push_copies(alloc, &mut self.items, &more.items);
        if copied.is_err() {
            self.items.truncate(start);
        }
        copied
    }

    /// Removes every item that isn't a put.
    pub fn retain_puts(&mut self)
        ensures { self.new ≡ entries_of self.old }
    {
        self.items.retain(|item| item.is_put());
    }

    /// Copies the list. Fails only if memory runs out; the copy of an empty list takes none.
    pub fn copy(&self, alloc: Global) -> Result<Items, NoRoom>
        ensures same { IfOk result (λ copy. copy ≡ self.now) }
        ensures room { OnErr result (self.now ≢ []) }
    {
        Items::copies(alloc, self.as_slice())
    }
}

// Appends copies of the items. If memory runs out, some of them may have been added.
fn push_copies(alloc: Global, items: &mut Vec<Item>, more: &[Item]) -> Result<(), NoRoom>
    ensures added { OnOk result (items.new.items ≡ items.old.items ++ more.now) }
    ensures kept { OnErr result (take (length items.old.items) items.new.items ≡ items.old.items) }
    ensures room { OnErr result (more.now ≢ []) }
{
    for item in more {
        items.push(item.copy(alloc)?)?;
    }
    Ok(())
}

impl PartialEq for Items {
    ghost use Rattle.std.specs.Cmp.Lexicographic.{pointwise, lists_per};
    ghost use Rattle.ds_entry.specs.contracts.item.ItemPartialEq.TheImpl.{ghosts as item};
    ghost use Rattle.ds_entry.specs.contracts.item.ItemPartialEq.TheImpl.Laws.{laws-law};

    ghost eq = { pointwise item.eq };

    ghost laws = { lists_per laws-law };

    fn eq(&self, other: &Items) -> bool {
        self.items == other.items
    }
}

impl Eq for Items {
    ghost use Rattle.std.proofs.lemmas.Cmp.{lists_equiv};
    ghost use Rattle.ds_entry.specs.contracts.item.ItemEq.TheImpl.Laws.{laws-law};

    ghost laws = { lists_equiv laws-law };
}
