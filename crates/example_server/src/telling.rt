//! Prints the store's replies.

use crate::INET;
use ds_entry::{Body, Change, Floor, Item, Items, Value};
use ds_machine::Reply;
use std::rt::Runtime;

/// Prints a reply. Returns None if writing fails.
pub(crate) fn tell(rt: &impl Print, reply: &Reply) -> Option<()> {
    match reply {
        Reply::Subscribed { stamp, .. } => println!(rt; "subscribed with stamp {stamp}").ok(),
        Reply::Changed { owed } => tell_owed(rt, "changed", *owed),
        Reply::Swept { owed, .. } => tell_owed(rt, "swept", *owed),
        Reply::Checked { items, .. } => tell_items(rt, items),
        Reply::Refused(refusal) => println!(rt; "refused: {refusal}").ok(),
        _ => println!(rt; "answered").ok(),
    }
}

// Prints what was done, and whether `inet` is to be notified.
fn tell_owed(rt: &impl Print, done: &str, owed: u128) -> Option<()> {
    if owed >> INET & 1 == 1 {
        println!(rt; "{done}: notify inet").ok()
    } else {
        println!(rt; "{done}").ok()
    }
}

fn tell_items(rt: &impl Print, items: &Items) -> Option<()> {
    for index in 0..items.len() {
        match items.get(index)? {
            Item::Floor(floor) => tell_floor(rt, floor)?,
            Item::Change(change) => tell_change(rt, change)?,
        }
    }
    Some(())
}

// Prints up to which generation everything that an owner published is gone.
fn tell_floor(rt: &impl Print, floor: &Floor) -> Option<()> {
    let owner = str::from_utf8(floor.owner.bytes()).ok()?;
    let generation = floor.generation.number();
    println!(rt; "  {owner} has left nothing up to generation {generation}").ok()
}

// Prints the value under a name.
fn tell_change(rt: &impl Print, change: &Change) -> Option<()> {
    let name = str::from_utf8(change.key().name.bytes()).ok()?;
    let printed = match change.body() {
        Body::Put(Value::Label(endpoint)) => {
            let (generation, slot) = (endpoint.generation().number(), endpoint.slot());
            println!(rt; "  {name} is at {generation}/{slot}")
        }
        Body::Put(Value::U32(number)) => println!(rt; "  {name} is {number}"),
        _ => println!(rt; "  {name} is gone"),
    };
    printed.ok()
}
