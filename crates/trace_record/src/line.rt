//! The lines of an input.

ghost use Rattle.std.specs.Prelude.{◌≡◌, IfOk, IfErr};
ghost use Rattle.line_io.specs.Lines.{EndsLine};
ghost use Rattle.trace_record.specs.Asking.{asked_by};
ghost use Rattle.trace_record.specs.Causes.{ReadsOn};
ghost use Rattle.trace_record.specs.Reading.{Comes, IsBadHead, IsHeadAfter, IsReady};

use crate::fault::RecordFault;
use crate::place::{longest, place_of_command, place_of_long};
use line_io::{LONGEST_LINE, Lines, Source};
use std::alloc::Global;
use trace_walk::{AskedFault, Format, Head, next_line, read_head};

/// Reads the next line, where a command must follow, and returns whether there is one.
pub(crate) fn next_command<R: Source>(
    lines: &mut Lines,
    reader: &mut R,
) -> Result<bool, RecordFault>
    ensures comes { Comes lines.old (R.remaining reader.old) lines.new (R.remaining reader.new) result }
    ensures ready { IsReady lines.new result }
    ensures reads { ReadsOn R.Source result reader.old reader.new lines.old.reads lines.new.reads }
{
    let before = lines.count();
    match next_line(lines, reader) {
        Ok(there) => Ok(there),
        Err(fault) => {
            let place = place_of_long(lines, before);
            Err(RecordFault::of_lines(fault, place))
        }
    }
}

/// Reads the first line of an entry, as the trace has it. `line` is that line in the input, and `number` its number.
pub(crate) fn read_asking(
    alloc: Global,
    text: &[u8],
    line: &[u8],
    number: u64,
    format: Format,
) -> Result<Head, RecordFault>
    requires ends { EndsLine line.now }
    requires text { text.now ≡ asked_by line.now }
    ensures found { IfOk result (IsHeadAfter format text.now) }
    ensures fails { IfErr result (IsBadHead format line.now number) }
{
    if text.len() > LONGEST_LINE + 1 {
        return Err(RecordFault::BadLine {
            line: number,
            place: longest(line),
        });
    }
    match read_head(alloc, text, format) {
        Ok((_pass, head)) => Ok(head),
        Err(AskedFault::BadLine) => Err(RecordFault::BadLine {
            line: number,
            place: place_of_command(alloc, line, number),
        }),
        Err(AskedFault::NoRoom) => Err(RecordFault::NoRoom),
    }
}
