//! Borrowed items of a message.

ghost use Rattle.std.specs.Prelude.{◌<◌, length, IfNone, IfSome};
ghost use Rattle.ds_replica.specs.Happens.{count_of};
ghost use Rattle.ds_replica.specs.Lent.{items_lent, AreFirstLent};

use ds_entry::Item;
use ds_packed::Unpacking;

/// The items of a message, or the first of them: a slice, or packed.
#[derive(Drop)]
pub enum Lent<'a> {
    Whole(&'a [Item]),
    Packed(Unpacking<'a>),
}

impl<'a> Lent<'a> {
    /// Returns the first `count` items, or all, or `None` if there are fewer than `count`.
    pub fn first(self, count: Option<usize>) -> Option<Lent<'a>>
        ensures some { IfSome result (AreFirstLent count self.entry) }
        ensures few { IfNone result (length (items_lent self.entry) < count_of count (items_lent self.entry)) }
    {
        match self {
            Lent::Whole(items) => {
                let first = items.get(..count.unwrap_or(items.len()))?;
                Some(Lent::Whole(first))
            }
            Lent::Packed(items) => {
                let first = items.first(count.unwrap_or(items.len()))?;
                Some(Lent::Packed(first))
            }
        }
    }
}
