//! Laws of feeds.

ghost use Rattle.ds_feed.specs.Laws.{PrefixIsShortest, PrefixesJoin, PagesGoOn};

/// Laws of reading from a cursor: the items looked at are the shortest prefix with `max` items under the scope, or all
/// items. A reader that continues from the returned cursor misses nothing and gets nothing twice.
pub fn prefixes_are_shortest()
    ensures shortest { PrefixIsShortest }
    ensures join { PrefixesJoin }
{}

/// A law: if what is held is unchanged, a reader that continues after the last key of a page gets exactly the items that
/// the page left out.
pub fn pages_go_on()
    ensures { PagesGoOn }
{}
