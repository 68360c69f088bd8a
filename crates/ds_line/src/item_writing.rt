//! Writing the line of an item.

ghost use Rattle.std.specs.Prelude.{◌≡◌, ◌++◌, OnOk, OnErr, IfOk};
ghost use Rattle.ds_line.specs.ItemSpelling.{floor_parts, item_spelling};
ghost use Rattle.ds_line.specs.Part.{texts};

use crate::writing::{append_all, append_change};
use ds_entry::{Floor, Item};
use ds_names::NoRoom;
use itoa::Buffer;
use std::alloc::Global;

/// Returns the line of an item, newline included. Fails only if memory runs out.
pub fn write_item(alloc: Global, item: &Item) -> Result<Vec<u8>, NoRoom>
    ensures { IfOk result (λ line. line.items ≡ item_spelling item.now) }
{
    let mut line = Vec::new(alloc);
    append_item(&mut line, item)?;
    Ok(line)
}

/// Appends the line of an item, newline included, to a buffer. If memory runs out, the buffer is unchanged.
pub fn append_item(buffer: &mut Vec<u8>, item: &Item) -> Result<(), NoRoom>
    ensures written { OnOk result (buffer.new.items ≡ buffer.old.items ++ item_spelling item.now) }
    ensures unchanged { OnErr result (buffer.new.items ≡ buffer.old.items) }
{
    match item {
        Item::Change(change) => append_change(buffer, change),
        Item::Floor(floor) => append_floor(buffer, floor),
    }
}

// Appends the line of a floor. If memory runs out, the buffer is unchanged.
fn append_floor(buffer: &mut Vec<u8>, floor: &Floor) -> Result<(), NoRoom>
    ensures written { OnOk result (buffer.new.items ≡ buffer.old.items ++ texts (floor_parts floor.now)) }
    ensures unchanged { OnErr result (buffer.new.items ≡ buffer.old.items) }
{
    let owner = floor.owner.bytes();
    let mut digits = Buffer::new();
    let generation = digits.format(floor.generation.number()).as_bytes();
    append_all(buffer, &[b"! ", owner, b" ", generation, b"\n"])
}
