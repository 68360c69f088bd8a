//! Appends answers to a text.

use ds_entry::Items;
use ds_line::{append_all, append_item};
use ds_names::NoRoom;
use itoa::Buffer;

/// Appends a number between two words.
pub fn append_number(
    text: &mut Vec<u8>,
    before: &[u8],
    number: u64,
    after: &[u8],
) -> Result<(), NoRoom> {
    let mut digits = Buffer::new();
    append_all(text, &[before, digits.format(number).as_bytes(), after])
}

/// Appends the line of each item.
pub fn append_items(text: &mut Vec<u8>, items: &Items) -> Result<(), NoRoom> {
    for item in items.as_slice() {
        append_item(text, item)?;
    }
    Ok(())
}
