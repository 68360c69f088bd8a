//! Replies that return items.

ghost use Rattle.std.specs.Prelude.{◌≡◌, ◌++◌, ◌∷◌, [], OnOk, OnErr, length};
ghost use Rattle.std.specs.List.{flat_map};
ghost use Rattle.std.specs.Fmt.{decimal};
ghost use Rattle.ds_line.specs.ItemSpelling.{item_spelling};
ghost use Rattle.line_io.specs.Lines.{with_newline};
ghost use Rattle.script_answers.specs.Reply.{checked_text, since_text, snapped, page_mark, page_text};

use ds_entry::Items;
use ds_feed::{Page, Since, Snapshot};
use ds_line::{append_item, append_numbers};
use ds_names::NoRoom;

/// Appends the lines of a check: its items, then their count and the stamps before and after.
pub(crate) fn append_checked(
    buffer: &mut Vec<u8>,
    items: &Items,
    before: u64,
    after: u64,
) -> Result<(), NoRoom>
    ensures written { OnOk result (buffer.new.items
        ≡ buffer.old.items ++ (flat_map item_spelling items.now ++ with_newline (checked_text (length items.now) before after))) }
    ensures unchanged { OnErr result (buffer.new.items ≡ buffer.old.items) }
{
    let count = items.len() as u64;
    append_listed(
        buffer,
        items,
        &[(b"checked ", count), (b" ", before), (b" ", after)],
    )
}

/// Appends the lines of a `since`: its items, then their count and the cursor after them.
pub(crate) fn append_journaled(buffer: &mut Vec<u8>, since: &Since) -> Result<(), NoRoom>
    ensures written { OnOk result (buffer.new.items
        ≡ buffer.old.items ++ (flat_map item_spelling since.now.items ++ with_newline (since_text since.now))) }
    ensures unchanged { OnErr result (buffer.new.items ≡ buffer.old.items) }
{
    append_listed(
        buffer,
        &since.items,
        &[
            (b"since ", since.items.len() as u64),
            (b" ", since.cursor.incarnation),
            (b" ", since.cursor.position),
        ],
    )
}

/// Appends the lines of a snapshot: its items, then their count and its cursor.
pub(crate) fn append_snapped(buffer: &mut Vec<u8>, snapshot: &Snapshot) -> Result<(), NoRoom>
    ensures written { OnOk result (buffer.new.items
        ≡ buffer.old.items ++ (flat_map item_spelling snapshot.now.items ++ with_newline (snapped snapshot.now))) }
    ensures unchanged { OnErr result (buffer.new.items ≡ buffer.old.items) }
{
    append_listed(
        buffer,
        &snapshot.items,
        &[
            (b"snapshot ", snapshot.items.len() as u64),
            (b" ", snapshot.cursor.incarnation),
            (b" ", snapshot.cursor.position),
        ],
    )
}

/// Appends the lines of a page: its items, then their count, whether it is the last page, and its cursor.
pub(crate) fn append_paged(buffer: &mut Vec<u8>, page: &Page) -> Result<(), NoRoom>
    ensures written { OnOk result (buffer.new.items
        ≡ buffer.old.items ++ (flat_map item_spelling page.now.items ++ with_newline (page_text page.now))) }
    ensures unchanged { OnErr result (buffer.new.items ≡ buffer.old.items) }
{
    append_listed(
        buffer,
        &page.items,
        &[
            (b"page ", page.items.len() as u64),
            (page_mark(page.last), page.cursor.incarnation),
            (b" ", page.cursor.position),
        ],
    )
}

// Returns the word for whether a page is the last one, between two spaces.
fn page_mark(last: bool) -> &'static [u8]
    ensures { result.now ≡ page_mark last }
{
    if last { b" last " } else { b" more " }
}

// Appends the line of each item, and a line of numbers.
fn append_listed(
    buffer: &mut Vec<u8>,
    items: &Items,
    numbers: &[(&[u8], u64)],
) -> Result<(), NoRoom>
    ensures written { OnOk result (buffer.new.items
        ≡ buffer.old.items ++ (flat_map item_spelling items.now ++ (flat_map (λ n. n.0.now ++ decimal n.1) numbers.now ++ 10 ∷ []))) }
    ensures unchanged { OnErr result (buffer.new.items ≡ buffer.old.items) }
{
    let start = buffer.len();
    append_items(buffer, items)?;
    let written = append_numbers(buffer, numbers);
    if written.is_err() {
        buffer.truncate(start);
    }
    written
}

// Appends the line of each item.
fn append_items(buffer: &mut Vec<u8>, items: &Items) -> Result<(), NoRoom>
    ensures written { OnOk result (buffer.new.items ≡ buffer.old.items ++ flat_map item_spelling items.now) }
    ensures unchanged { OnErr result (buffer.new.items ≡ buffer.old.items) }
{
    let start = buffer.len();
    for item in items.as_slice() {
        if append_item(buffer, item).is_err() {
            buffer.truncate(start);
            return Err(NoRoom);
        }
    }
    Ok(())
}
