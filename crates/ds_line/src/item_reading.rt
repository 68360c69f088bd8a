//! Reading the line of an item.

ghost use Rattle.std.specs.Prelude.{◌≡◌, ◌∷◌, List, ℕ, length, take, IfOk, IfErr};
ghost use Rattle.ds_entry.specs.Item.{IsItem};
ghost use Rattle.ds_line.specs.FloorPiece.{ReadsFloor};
ghost use Rattle.ds_line.specs.ItemFault.{IsItemFaultIn};
ghost use Rattle.ds_line.specs.ItemReading.{ReadsItemLine};
ghost use Rattle.ds_line.specs.ItemSpelling.{item_spelling};

use crate::expected::Expected;
use crate::fault::LineFault;
use crate::part_fault::{PartFault, stop_at};
use crate::parts::{after_name, name_at};
use crate::reading::change_into;
use ds_entry::{Floor, Item};
use ds_names::limits::LAST_GENERATION;
use ds_names::{Generation, read_byte, read_decimal};
use std::alloc::Global;

/// Reads the item whose line is at the front, and returns it with the line's length, newline included.
///
/// Bytes that begin with `!` are read as a floor, any others as a change. Refuses bytes that don't begin with an item's
/// line as BadLine, with the place of the first part that can't be read. Then reports NoRoom if memory runs out, which
/// only a put of a text or a blob takes.
pub fn read_item(alloc: Global, bytes: &[u8]) -> Result<(Item, usize), LineFault>
    ensures line { IfOk result (λ r. IsItem r.0) }
    ensures found { IfOk result (λ r. take r.1 bytes.now ≡ item_spelling r.0) }
    ensures length { IfOk result (λ r. r.1 ≡ length (item_spelling r.0)) }
    ensures fault { IfErr result (λ fault. IsItemFaultIn fault bytes.now) }
{
    let mut expected = Expected::Name;
    let mut slot = None;
    let length = read_item_into(alloc, bytes, &mut expected, &mut slot)?;
    match slot {
        Some(item) => Ok((item, length)),
        None => unreachable!(),
    }
}

/// Like `read_item`, but stores the item in `slot` and returns the line's length. So no item is copied from reader to
/// caller.
///
/// Notes each part in `expected` before it reads it. At BadLine, `expected` is the part that begins at the place.
#[inline(always)]
pub fn read_item_into(
    alloc: Global,
    bytes: &[u8],
    expected: &mut Expected,
    slot: &mut Option<Item>,
) -> Result<usize, LineFault>
    ensures { ReadsItemLine bytes.now result slot.new }
{
    let Some(_after) = read_byte(bytes, b'!') else {
        return change_into(alloc, bytes, expected, slot);
    };
    floor_into(bytes, expected, slot)
}

// Reads a floor's line. Not inlined, because most items are changes, and they would clear this function's frame too.
#[inline(never)]
fn floor_into(
    bytes: &[u8],
    expected: &mut Expected,
    slot: &mut Option<Item>,
) -> Result<usize, LineFault>
    requires { (after : List ℕ) × (bytes.now ≡ 33 ∷ after) }
    ensures { ReadsItemLine bytes.now result slot.new }
{
    let (floor, left) = match floor_at(bytes, expected) {
        Ok(read) => read,
        Err(PartFault::BadPart { left }) => {
            let place = bytes.len() - left;
            return Err(LineFault::BadLine { place });
        }
        Err(PartFault::NoRoom) => return Err(LineFault::NoRoom),
    };
    *slot = Some(Item::Floor(floor));
    let length = bytes.len() - left;
    Ok(length)
}

// Reads a floor from its `!` on, and returns it with the number of bytes after its line.
fn floor_at(bytes: &[u8], expected: &mut Expected) -> Result<(Floor, usize), PartFault>
    ensures { ReadsFloor bytes.now result }
{
    *expected = Expected::Name;
    let Some(rest) = read_byte(bytes, b'!') else {
        return Err(stop_at(bytes));
    };
    *expected = Expected::Space;
    let Some(at) = read_byte(rest, b' ') else {
        return Err(stop_at(rest));
    };
    *expected = Expected::Owner;
    let Some(owner) = name_at(at) else {
        return Err(stop_at(at));
    };
    let rest = after_name(at, &owner);
    *expected = Expected::Space;
    let Some(at) = read_byte(rest, b' ') else {
        return Err(stop_at(rest));
    };
    *expected = Expected::Generation;
    let Some((number, rest)) = read_decimal(at, LAST_GENERATION as u64) else {
        return Err(stop_at(at));
    };
    let Some(generation) = Generation::of(number as u32) else {
        return Err(stop_at(at));
    };
    *expected = Expected::End;
    let Some(rest) = read_byte(rest, b'\n') else {
        return Err(stop_at(rest));
    };
    Ok((Floor { owner, generation }, rest.len()))
}
