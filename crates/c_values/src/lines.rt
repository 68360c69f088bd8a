//! The items of a Merge, one line each.

ghost use Rattle.c_values.specs.Lines.{ReadsLines};

use ds_entry::Items;
use ds_line::{LineFault, read_item};
use ds_names::NoRoom;
use std::alloc::Global;

/// Reads a text of items, one line each. Returns `None` if the text isn't such lines, and fails only if memory runs out for the items.
pub fn read_items(alloc: Global, text: &[u8]) -> Result<Option<Items>, NoRoom>
    ensures { ReadsLines text.now result }
{
    let mut items = Items::new(alloc);
    let mut rest = text;
    while !rest.is_empty() {
        match read_item(alloc, rest) {
            Ok((item, length)) => {
                items.push(item)?;
                rest = &rest[length..];
            }
            Err(LineFault::NoRoom) => return Err(NoRoom),
            Err(LineFault::BadLine { .. }) => return Ok(None),
        }
    }
    Ok(Some(items))
}
