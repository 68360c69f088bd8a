//! The answers to `show` and `all`.

ghost use Rattle.std.specs.Prelude.{◌≡◌, ◌++◌, [], ◌∷◌, IfOk, OnOk, OnErr, length, take};
ghost use Rattle.std.specs.List.{flat_map};
ghost use Rattle.ds_line.specs.ItemSpelling.{item_spelling};
ghost use Rattle.ds_held.specs.Held.{held_items};
ghost use Rattle.ds_script.specs.Answer.{picked, shown, AppendsOrRefuses};

use ds_entry::{Item, Items};
use ds_held::Held;
use ds_line::{append_item, append_numbers};
use ds_names::NoRoom;
use script_answers::append_noroom;
use std::alloc::Global;

/// Appends the answer to `show` (the puts) or to `all` (floors and tombstones too), or the refusal if memory runs out.
///
/// It copies what is held as one list, floors first, then changes in key order. Stepping from key to key would search
/// all keys each time.
pub(crate) fn append_shown(
    alloc: Global,
    held: &Held,
    output: &mut Vec<u8>,
    all: bool,
) -> Result<(), NoRoom>
    ensures answered { OnOk result (AppendsOrRefuses (shown (picked all (held_items held.now))) output.old.items output.new.items) }
    ensures unanswered { OnErr result (output.new.items ≡ output.old.items) }
{
    match held.all(alloc) {
        Ok(items) => match append_items(&items, output, all) {
            Ok(()) => Ok(()),
            Err(NoRoom) => append_noroom(output),
        },
        Err(NoRoom) => append_noroom(output),
    }
}

/// Appends the lines of the items, or of the puts alone, then `shown` and their count. If memory runs out, appends
/// nothing.
pub(crate) fn append_items(items: &Items, output: &mut Vec<u8>, all: bool) -> Result<(), NoRoom>
    ensures written { OnOk result (output.new.items ≡ output.old.items ++ shown (picked all items.now)) }
    ensures unwritten { OnErr result (output.new.items ≡ output.old.items) }
{
    let start = output.len();
    let written = append_lines(items, output, all);
    if written.is_err() {
        output.truncate(start);
    }
    written
}

// Likewise, but if memory runs out, some of it may be appended.
fn append_lines(items: &Items, output: &mut Vec<u8>, all: bool) -> Result<(), NoRoom>
    ensures written { OnOk result (output.new.items ≡ output.old.items ++ shown (picked all items.now)) }
    ensures kept { OnErr result (take (length output.old.items) output.new.items ≡ output.old.items) }
{
    let mut count = 0usize;
    for item in items.as_slice() {
        count += append_picked(item, output, all)?;
    }
    append_numbers(output, &[(b"shown ", count as u64)])
}

// Appends the line of an item if it is picked, and returns how many lines that is.
fn append_picked(item: &Item, output: &mut Vec<u8>, all: bool) -> Result<usize, NoRoom>
    ensures count { IfOk result (λ count. count ≡ length (picked all (item.now ∷ []))) }
    ensures written { OnOk result (output.new.items ≡ output.old.items ++ flat_map item_spelling (picked all (item.now ∷ []))) }
    ensures unwritten { OnErr result (output.new.items ≡ output.old.items) }
{
    if all || item.is_put() {
        append_item(output, item)?;
        Ok(1)
    } else {
        Ok(0)
    }
}
