//! What readers of a store get.

use crate::cursor::Cursor;
use ds_entry::Items;

/// Items that took effect from a cursor on, in order, and the cursor after the last item looked at.
#[derive(Debug, Drop)]
pub struct Since {
    pub items: Items,
    pub cursor: Cursor,
}

/// Everything held under a scope, and the cursor from which the journal continues. Floors come first, then changes in the
/// order of their keys.
#[derive(Debug, Drop)]
pub struct Snapshot {
    pub items: Items,
    pub cursor: Cursor,
}

/// A part of what is held under a scope: the first changes after a key, in the order of keys. The first page comes after
/// no key, and begins with all floors.
#[derive(Debug, Drop)]
pub struct Page {
    pub items: Items,
    /// Whether no change under the scope comes after the page.
    pub last: bool,
    /// The cursor at the time of this page. What took effect since the first page is in the journal from that page's
    /// cursor on.
    pub cursor: Cursor,
}
