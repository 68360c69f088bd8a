//! The answer to `entries`.

ghost use Rattle.std.specs.Prelude.{◌≡◌, OnOk, OnErr};
ghost use Rattle.std.specs.Option.{option_copied};
ghost use Rattle.ds_script.specs.Answer.{AppendsEntries};

use crate::shown::append_items;
use ds_line::append_all;
use ds_names::NoRoom;
use ds_submap::SubMap;
use script_answers::append_noroom;
use std::alloc::Global;

/// Appends the puts of a map, or the refusal: no such map, or out of memory.
pub(crate) fn append_entries(
    alloc: Global,
    map: Option<&SubMap>,
    output: &mut Vec<u8>,
) -> Result<(), NoRoom>
    ensures answered { OnOk result (AppendsEntries (option_copied map.entry) output.old.items output.new.items) }
    ensures unanswered { OnErr result (output.new.items ≡ output.old.items) }
{
    let Some(map) = map else {
        return append_all(output, &[b"refused nomap\n"]);
    };
    match map.entries(alloc) {
        Ok(items) => match append_items(&items, output, true) {
            Ok(()) => Ok(()),
            Err(NoRoom) => append_noroom(output),
        },
        Err(NoRoom) => append_noroom(output),
    }
}
