//! Lines that can't be read.

ghost use Rattle.std.specs.Prelude.{◌≡◌, ◌++◌, OnOk, OnErr};
ghost use Rattle.ds_script.specs.Replay.{badline};
ghost use Rattle.ds_script.specs.Passing.{EndsFor, PassesOver, TellsExpected};

use crate::fault::ReplayFault;
use crate::report::{BadLine, Report};
use ds_line::append_numbers;
use ds_names::NoRoom;
use line_io::{Sink, send};

/// Writes the waiting answers, reports the line, and returns its fault. If the writer fails, returns WriteFault and
/// reports nothing.
pub(crate) fn end_at<W: Sink, B: Report>(
    writer: &mut W,
    report: &mut B,
    bad: &BadLine<'_>,
    output: &mut Vec<u8>,
) -> ReplayFault
    ensures ends { EndsFor W.Sink result bad.now.number bad.now.place writer.old writer.new output.old.items output.new.items }
    ensures expected { TellsExpected result bad.now.expected }
{
    let Ok(()) = send(writer, output) else {
        return ReplayFault::WriteFault;
    };
    report.bad_line(bad);
    ReplayFault::BadLine {
        line: bad.number,
        place: bad.place,
        expected: bad.expected,
    }
}

/// Writes the waiting answers and `badline` for this line, and reports the line.
pub(crate) fn pass_over<W: Sink, B: Report>(
    writer: &mut W,
    report: &mut B,
    bad: &BadLine<'_>,
    output: &mut Vec<u8>,
) -> Result<(), ReplayFault>
    ensures { PassesOver W.Sink bad.now.number bad.now.place writer.old writer.new output.old.items output.new.items result }
{
    append_badline(output, bad.number, bad.place)?;
    send(writer, output)?;
    report.bad_line(bad);
    Ok(())
}

// Appends the answer to a line that can't be read, or nothing.
fn append_badline(output: &mut Vec<u8>, number: u64, place: usize) -> Result<(), NoRoom>
    ensures written { OnOk result (output.new.items ≡ output.old.items ++ badline number place) }
    ensures unchanged { OnErr result (output.new.items ≡ output.old.items) }
{
    append_numbers(output, &[(b"badline ", number), (b" ", place as u64)])
}
