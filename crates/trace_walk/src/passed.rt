//! An entry of format 1, written in format 2.

ghost use Rattle.std.specs.Prelude.{◌≤◌, IfOk};
ghost use Rattle.trace_walk.specs.Passing.{IsWrittenAs};

use crate::merges::Merges;
use crate::walk::Walk;
use crate::writing::append_marked;
use ds_line::append_all;
use ds_names::NoRoom;

/// An entry of format 1 that a walk passed, in format 2.
#[derive(Drop)]
pub enum Passed {
    /// The same entry.
    AsItStands,
    /// A sweep: Merges of the tombstones that it left, if it left any.
    Swept(Merges),
}

/// Appends the entry that the walk passed, in format 2, and returns how many entries that is.
pub fn append_passed(text: &mut Vec<u8>, walk: &Walk, passed: &Passed) -> Result<u64, NoRoom>
    ensures written { IfOk result (IsWrittenAs walk.now passed.now text.old.items text.new.items) }
    ensures few { IfOk result (λ count. count ≤ 255) }
{
    match passed {
        Passed::AsItStands => {
            append_all(text, &[walk.entry.text.as_slice()])?;
            append_marked(text, walk.reply.as_slice())?;
            Ok(1)
        }
        Passed::Swept(merges) => {
            append_all(text, &[merges.text.as_slice()])?;
            Ok(merges.count as u64)
        }
    }
}
