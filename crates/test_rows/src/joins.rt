//! A holder that is joined with others, and read key by key.

use crate::telling::tell;
use ds_entry::Item;
use ds_held::Held;
use ds_join::{JoinFault, Stop};
use ds_line::{append_change, read_item};
use std::alloc::Global;
use test_kit::{append_items, append_number};

const HELD: [&[u8]; 3] = [
    b"! eth0 2\n",
    b"eth0 label rs 2.0 = 2/17\n",
    b"id str eth0 3.0 = \"up\"\n",
];

// The last one is of another owner than the one held.
const OTHERS: [&[u8]; 4] = [
    b"! eth0 2\n",
    b"! tty 1\n",
    b"eth0 label rs 3.0 = 3/17\n",
    b"id str tty 4.0 = \"up\"\n",
];

const KNOWN: [&[u8]; 1] = [b"id str eth0 3.0 = \"up\"\n"];

// More than the holder has changes.
const MOST: u32 = 4;

/// Writes how each join ended, all that is held then, and its changes key by key. `None` if out of memory.
pub(crate) fn tell_rows(text: &mut Vec<u8>, alloc: Global) -> Option<()> {
    tell(text, &[b"a holder joined with two others\n"])?;
    let mut held = held_of(alloc, &HELD)?;
    tell_join(text, alloc, &mut held, &OTHERS)?;
    tell_join(text, alloc, &mut held, &KNOWN)?;
    append_items(text, &held.all(alloc).ok()?).ok()?;
    tell(text, &[b"its changes, key by key\n"])?;
    tell_by_key(text, &held)
}

// Returns a holder of these lines' items.
fn held_of(alloc: Global, lines: &[&[u8]]) -> Option<Held> {
    let mut held = Held::new(alloc);
    for line in lines {
        let (item, _) = read_item(alloc, line).ok()?;
        take(&mut held, item)?;
    }
    Some(held)
}

fn take(held: &mut Held, item: Item) -> Option<()> {
    let taken = match item {
        Item::Change(change) => held.merge(change),
        Item::Floor(floor) => held.raise(floor),
    };
    taken.ok().map(|_| ())
}

fn tell_join(text: &mut Vec<u8>, alloc: Global, held: &mut Held, lines: &[&[u8]]) -> Option<()> {
    let other = held_of(alloc, lines)?;
    match held.join(alloc, &other) {
        Ok(()) => tell(text, &[b"joined\n"]),
        Err(Stop { done, fault }) if fault == JoinFault::NotOwner => {
            append_number(text, b"stopped ", done as u64, b" notowner\n").ok()
        }
        Err(_) => None,
    }
}

// Writes the first change, and the first after the key of each.
fn tell_by_key(text: &mut Vec<u8>, held: &Held) -> Option<()> {
    let mut after = None;
    for _ in 0..MOST {
        match held.first_after(after.as_ref()) {
            Some(change) => {
                append_change(text, change).ok()?;
                after = Some(*change.key());
            }
            None => return tell(text, &[b"-\n"]),
        }
    }
    None
}
