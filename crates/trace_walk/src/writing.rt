//! Writing the lines of a trace.

ghost use Rattle.std.specs.Prelude.{◌≡◌, ◌++◌, OnOk};
ghost use Rattle.std.specs.List.{flat_map};
ghost use Rattle.trace_walk.specs.declared.asked.Asked.TheVariants as askeds;
ghost use Rattle.trace_walk.specs.Text.{asked_text, header_text, marked, plus_text};

use crate::header::{Format, Header};
use ds_entry::Item;
use ds_line::{append_all, append_item, append_numbers};
use ds_names::NoRoom;
use line_io::split_line;

/// Appends the first line of a trace.
pub fn append_header(text: &mut Vec<u8>, header: &Header) -> Result<(), NoRoom>
    ensures { OnOk result (text.new.items ≡ text.old.items ++ header_text header.now) }
{
    let (incarnation, first, ring) = (header.incarnation, header.first, header.ring as u64);
    match header.format {
        Format::One => append_numbers(
            text,
            &[(b"trace 1 ", incarnation), (b" ", first), (b" ", ring)],
        ),
        Format::Two => append_numbers(
            text,
            &[
                (b"trace 2 ", incarnation),
                (b" ", first),
                (b" ", ring),
                (b" ", header.limits.subs() as u64),
                (b" ", header.limits.keys() as u64),
            ],
        ),
    }
}

/// Appends the lines of a pass's Merge of the items. If memory runs out, some of them may be appended.
pub fn append_merge(text: &mut Vec<u8>, pass: u64, items: &[Item]) -> Result<(), NoRoom>
    ensures { OnOk result (text.new.items ≡ text.old.items ++ asked_text pass (askeds.Merge items.now)) }
{
    let count = items.len() as u64;
    append_numbers(text, &[(b"> ", pass), (b" merge ", count)])?;
    append_pluses(text, items)
}

// Appends the lines of the items of a Merge.
fn append_pluses(text: &mut Vec<u8>, items: &[Item]) -> Result<(), NoRoom>
    ensures { OnOk result (text.new.items ≡ text.old.items ++ flat_map plus_text items.now) }
{
    for item in items {
        append_all(text, &[b"+ "])?;
        append_item(text, item)?;
    }
    Ok(())
}

/// Appends the lines of a reply, each after its mark. If memory runs out, some of them may be appended.
pub fn append_marked(text: &mut Vec<u8>, lines: &[u8]) -> Result<(), NoRoom>
    ensures { OnOk result (text.new.items ≡ text.old.items ++ marked lines.now) }
{
    let mut rest = lines;
    while let Some((line, more)) = split_line(rest) {
        append_all(text, &[b"< ", line])?;
        rest = more;
    }
    if rest.is_empty() {
        return Ok(());
    }
    append_all(text, &[b"< ", rest])?;
    Ok(())
}
