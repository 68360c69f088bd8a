//! Packed lists.

ghost use Rattle.std.specs.Prelude.{◌≡◌, ◌++◌, ◌∷◌, [], IfSome};

use crate::row::Row;
use crate::unpacking::Unpacking;
use ds_entry::Item;
use std::alloc::Global;
use std::marker::Model;

/// A packed list of items. No item has a str or mem value.
#[derive(Drop)]
pub struct Packed {
    rows: Vec<Row>,
    names: Vec<u8>,
}

impl Model for Packed {
    ghost use Rattle.std.specs.Prelude.{List};
    ghost use Rattle.ds_entry.specs.declared.item.Item.{Item};
    ghost use Rattle.ds_packed.specs.Rows.{unpacked, AreRows};

    ghost Value = { List Item };

    ghost view = { λ p. unpacked p.names.items p.rows.items };

    ghost invariant = { λ p. AreRows p.names.items p.rows.items };
}

// Returns the total length of the items' names, which is at least what the packed list takes for them.
fn names_length(items: &[Item]) -> usize {
    let mut length: usize = 0;
    for item in items {
        let names = match item {
            Item::Change(change) => {
                change.key().name.bytes().len() + change.owner().bytes().len()
            }
            Item::Floor(floor) => floor.owner.bytes().len(),
        };
        length = length.saturating_add(names);
    }
    length
}

impl Packed {
    // Returns an empty list with capacity for `items` items and `names` bytes of their names.
    fn with_room(alloc: Global, items: usize, names: usize) -> Option<Packed>
        ensures { IfSome result (λ packed. packed ≡ []) }
    {
        Some(Packed {
            rows: Vec::with_capacity(alloc, items).ok()?,
            names: Vec::with_capacity(alloc, names).ok()?,
        })
    }

    /// Packs the items. Returns `None` if one of them has a str or mem value, or if memory runs out.
    pub fn of(alloc: Global, items: &[Item]) -> Option<Packed>
        ensures { IfSome result (λ packed. packed ≡ items.now) }
    {
        let mut packed = Packed::with_room(alloc, items.len(), names_length(items))?;
        for item in items {
            packed = packed.with(item)?;
        }
        packed.names.shrink_to_fit();
        Some(packed)
    }

    // Appends an item. Returns `None` if it has a str or mem value, or if memory runs out.
    #[tactic(auto, using(crate::proofs::RowsLemmas::rows_push))]
    fn with(self, item: &Item) -> Option<Packed>
        ensures { IfSome result (λ packed. packed ≡ self ++ item.now ∷ []) }
    {
        let Packed {
            mut rows,
            mut names,
        } = self;
        let row = Row::of(item, &mut names)?;
        rows.push(row).ok()?;
        Some(Packed { rows, names })
    }

    /// Returns a reader of the items, at the first one.
    pub fn items(&self) -> Unpacking<'_>
        ensures { result ≡ self.now }
    {
        Unpacking::new(&self.rows, &self.names)
    }
}
