//! Reading a packed list item by item.

ghost use Rattle.std.specs.Prelude.{◌≡◌, ◌<◌, ◌∷◌, [], length, IfNone, IfSome};
ghost use Rattle.ds_entry.specs.Item.{IsItem};
ghost use Rattle.ds_packed.specs.First.{AreFirstItems};
ghost use Rattle.ds_packed.specs.Rows.{unpacked, HasRows};

use crate::row::Row;
use ds_entry::Item;
use std::marker::Model;

/// A reader of a packed list, with the items that are left. Reading takes no memory.
#[derive(Drop)]
pub struct Unpacking<'a> {
    rows: &'a [Row],
    names: &'a [u8],
}

impl<'a> Model for Unpacking<'a> {
    ghost use Rattle.std.specs.Prelude.{List};
    ghost use Rattle.ds_entry.specs.declared.item.Item.{Item};
    ghost use Rattle.ds_packed.specs.Rows.{unpacked, HasRows};

    ghost Value = { List Item };

    ghost view = { λ u. unpacked u.names.now u.rows.now };

    ghost invariant = { λ u. HasRows u.names.now u.rows.now };
}

impl<'a> Unpacking<'a> {
    // Returns a reader of the items of rows.
    pub(crate) fn new(rows: &'a [Row], names: &'a [u8]) -> Unpacking<'a>
        requires { HasRows names.now rows.now }
        ensures { result ≡ unpacked names.now rows.now }
    {
        Unpacking { rows, names }
    }

    /// Returns the number of items that are left.
    #[tactic(auto, using(crate::proofs::RowsLemmas::unpacked_length))]
    pub fn len(&self) -> usize
        ensures { result ≡ length self.now }
    {
        self.rows.len()
    }

    /// Returns a reader of the first `count` items, or `None` if fewer are left.
    #[tactic(auto, using(crate::proofs::RowsLemmas::unpacked_first, crate::proofs::RowsLemmas::first_rows, crate::proofs::RowsLemmas::unpacked_length))]
    pub fn first(&self, count: usize) -> Option<Unpacking<'a>>
        ensures some { IfSome result (AreFirstItems count self.now) }
        ensures few { IfNone result (length self.now < count) }
    {
        let rows = self.rows.get(..count)?;
        Some(Unpacking {
            rows,
            names: self.names,
        })
    }

    /// Returns the next item, or `None` past the last one.
    pub fn next(&mut self) -> Option<Item>
        ensures some { IfSome result (λ item. self.old ≡ item ∷ self.new) }
        ensures item { IfSome result IsItem }
        ensures none { IfNone result (self.old ≡ []) }
    {
        let (row, rows) = self.rows.split_first()?;
        let item = row.item(self.names);
        self.rows = rows;
        self.names = &self.names[row.length()..];
        Some(item)
    }
}
