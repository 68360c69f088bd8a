//! Lines of items.

use crate::telling::{tell, tell_whether};
use ds_entry::Items;
use ds_line::read_item;
use std::alloc::Global;

/// A change of each kind, the empty values too, and a tombstone of each rule.
pub(crate) const CHANGES: [&[u8]; 9] = [
    b"eth0 label rs 3.0 = 3/17\n",
    b"x.y_z-1 label rs 2097151.0 = 2097151/1023\n",
    b"eth0 label rs 3.1 -\n",
    b"mtu u32 eth0 3.4294967294 = 4294967295\n",
    b"id str eth0 3.0 = \"a\\\"b\\\\ ~\"\n",
    b"id str eth0 3.0 = \"\"\n",
    b"mac mem eth0 3.1 = 000ff0ab\n",
    b"mac mem eth0 3.1 = \n",
    b"mtu u32 eth0 3.4294967295 -\n",
];

/// Floors, and changes beside them.
pub(crate) const FLOORS: [&[u8]; 5] = [
    b"! eth0 3\n",
    b"! rs 0\n",
    b"! eth0 2097151\n",
    b"mtu u32 eth0 3.0 = 1500\n",
    b"motd str eth0 3.1 = \"!\"\n",
];

// A floor and what it covers or doesn't.
const PAIRS: [[&[u8]; 2]; 6] = [
    [b"! eth0 3\n", b"mtu u32 eth0 3.7 = 1500\n"],
    [b"! eth0 3\n", b"! eth0 2\n"],
    [b"mtu u32 eth0 3.7 = 1500\n", b"! eth0 3\n"],
    [b"! eth0 3\n", b"mtu u32 eth0 4.0 = 1500\n"],
    [b"! eth0 3\n", b"eth0 label rs 3.0 = 3/17\n"],
    [b"! eth0 3\n", b"irq u32 tty 3.0 = 4\n"],
];

/// Writes whether the first of each pair covers the second. `None` if out of memory.
pub(crate) fn tell_rows(text: &mut Vec<u8>, alloc: Global) -> Option<()> {
    tell(text, &[b"whether the one covers the other\n"])?;
    for pair in &PAIRS {
        tell(text, pair)?;
        let mut items = Items::new(alloc);
        read_items(alloc, &mut items, pair)?;
        tell_covered(text, &items)?;
    }
    Some(())
}

// Writes whether the first item covers the second.
fn tell_covered(text: &mut Vec<u8>, items: &Items) -> Option<()> {
    let is_covered = items.get(0)?.covers(items.get(1)?);
    tell_whether(text, b"", is_covered)
}

/// Parses the items of these lines into a list. `None`: a line isn't an item's, or out of memory.
pub(crate) fn read_items(alloc: Global, items: &mut Items, lines: &[&[u8]]) -> Option<()> {
    for line in lines {
        let (item, _) = read_item(alloc, line).ok()?;
        items.push(item).ok()?;
    }
    Some(())
}
