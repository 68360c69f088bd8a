//! The beginning of an input.

ghost use Rattle.std.specs.Prelude.{IfOk};
ghost use Rattle.trace_record.specs.Causes.{ReadsOn};
ghost use Rattle.trace_record.specs.Reading.{BeginsInput, IsReady};

use crate::fault::RecordFault;
use crate::line::next_command;
use crate::ring::{RING, ring_of};
use ds_names::NoRoom;
use line_io::{Lines, Source};
use std::alloc::Global;

/// The beginning of an input: how many items the journal keeps, and whether a command's line was reached.
#[derive(Drop)]
pub(crate) struct Beginning {
    pub ring: u32,
    pub next: Result<bool, RecordFault>,
}

/// Reads the first line of a command, after any `ring N`.
pub(crate) fn begin<R: Source>(
    alloc: Global,
    lines: &mut Lines,
    reader: &mut R,
) -> Result<Beginning, NoRoom>
    ensures begins { IfOk result (BeginsInput lines.old (R.remaining reader.old) lines.new (R.remaining reader.new)) }
    ensures ready { IfOk result (λ begin. IsReady lines.new begin.next) }
    ensures reads { IfOk result (λ begin. ReadsOn R.Source begin.next reader.old reader.new lines.old.reads lines.new.reads) }
{
    let next = next_command(lines, reader);
    let Some(ring) = ring_of(alloc, next, lines.line())? else {
        return Ok(Beginning { ring: RING, next });
    };
    let next = next_command(lines, reader);
    Ok(Beginning { ring, next })
}
