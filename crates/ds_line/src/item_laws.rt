//! Laws of the lines of items.

ghost use Rattle.std.specs.Prelude.{◌≡◌, ℕ, List, ◌++◌};
ghost use Rattle.ds_entry.specs.Item.{IsItem};
ghost use Rattle.ds_entry.specs.declared.item.Item.{Item};
ghost use Rattle.ds_line.specs.FaultPlace.{IsFaultPlace};
ghost use Rattle.ds_line.specs.ItemSpelling.{item_parts, item_spelling};
ghost use Rattle.line_io.specs.Lines.{EndsLine};

/// A law: two items with the same spelling are equal.
pub fn items_have_one_line()
    ensures { (i j : Item) → IsItem i → IsItem j → item_spelling i ≡ item_spelling j → i ≡ j }
{}

/// A law: no spelling is a prefix of another. If bytes begin with the lines of two items, the two are equal, and so are
/// the bytes after them.
pub fn item_lines_are_apart()
    ensures { (i j : Item) (r s : List ℕ) → IsItem i → IsItem j → item_spelling i ++ r ≡ item_spelling j ++ s → (i ≡ j) × (r ≡ s) }
{}

/// A law: bytes have at most one place where the first part that can't be read of an item begins.
pub fn item_faults_have_one_place()
    ensures { (bytes : List ℕ) (p q : ℕ) → IsFaultPlace IsItem item_parts bytes p → IsFaultPlace IsItem item_parts bytes q → p ≡ q }
{}

/// A law: a spelling has one newline, its last byte.
pub fn newlines_end_item_lines()
    ensures { (i : Item) → IsItem i → EndsLine (item_spelling i) }
{}
