//! Laws of items, for any holder.

ghost use Rattle.std.specs.Cmp.{IsTotalOrder};
ghost use Rattle.ds_entry.specs.CoverLaws.{CoversIsReflexive, CoversIsTransitive, CoversKeepsQueries, CoversIsExact, CoversNoneHeld};
ghost use Rattle.ds_entry.specs.Item.{item_cmp};

/// Five laws of covering.
///
/// An item covers itself. Covering is transitive. An item that covers one under a query of keys is under the query too.
/// Two single-numbered items that cover each other are equal. No item of a sorted list without void ones covers another
/// one of the list.
pub fn items_cover_one_another()
    ensures reflexive { CoversIsReflexive }
    ensures transitive { CoversIsTransitive }
    ensures query { CoversKeepsQueries }
    ensures exact { CoversIsExact }
    ensures apart { CoversNoneHeld }
{}

/// A law: the order of items is total.
pub fn items_are_ordered()
    ensures { IsTotalOrder item_cmp }
{}
