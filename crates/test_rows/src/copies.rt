//! Copies of what was parsed, written again.

use crate::lines::{CHANGES, FLOORS};
use crate::telling::tell;
use ds_entry::{Body, Change, Item};
use ds_line::{read_change, read_item, write_change, write_item};
use std::alloc::Global;

/// Writes each change, remade with a copy of its value. `None` if a line isn't parsed whole, the two differ, or memory
/// runs out.
pub(crate) fn tell_changes(text: &mut Vec<u8>, alloc: Global) -> Option<()> {
    tell(text, &[b"changes, made again of copies of their parts\n"])?;
    for line in CHANGES {
        match read_change(alloc, line) {
            Ok((change, length)) if length == line.len() => tell_change(text, alloc, &change)?,
            _ => return None,
        }
    }
    Some(())
}

fn tell_change(text: &mut Vec<u8>, alloc: Global, change: &Change) -> Option<()> {
    let copy = made_again(alloc, change)?;
    if copy != *change {
        return None;
    }
    let line = write_change(alloc, &copy).ok()?;
    tell(text, &[line.as_slice()])
}

// Returns the change, remade with a copy of its value.
fn made_again(alloc: Global, change: &Change) -> Option<Change> {
    let body = match change.body() {
        Body::Put(value) => Body::Put(value.copy(alloc).ok()?),
        Body::Gone => Body::Gone,
    };
    Change::make(*change.key(), *change.owner(), change.version(), body).ok()
}

/// Writes a copy of each item. `None` if a line isn't parsed whole, the two differ, or memory runs out.
pub(crate) fn tell_items_again(text: &mut Vec<u8>, alloc: Global) -> Option<()> {
    tell(text, &[b"items, copied one by one\n"])?;
    for line in FLOORS {
        match read_item(alloc, line) {
            Ok((item, length)) if length == line.len() => tell_item(text, alloc, &item)?,
            _ => return None,
        }
    }
    Some(())
}

fn tell_item(text: &mut Vec<u8>, alloc: Global, item: &Item) -> Option<()> {
    let copy = item.copy(alloc).ok()?;
    if copy != *item {
        return None;
    }
    let line = write_item(alloc, &copy).ok()?;
    tell(text, &[line.as_slice()])
}
