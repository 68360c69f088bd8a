//! Writes the waiting entries.

ghost use Rattle.std.specs.Prelude.{◌≡◌, OnOk, OnErr, IfErr};
ghost use Rattle.line_io.specs.Streams.{HasFailedWrite, OnlyCalls};
ghost use Rattle.line_io.specs.Transfer.{SendsFront, WritesPart};
ghost use Rattle.trace_record.specs.declared.fault.RecordFault.TheVariants as faults;

use crate::fault::RecordFault;
use line_io::{Sink, newline_place, send};

/// The waiting entries are written once they have this many bytes, even if another line was read already.
const FULL: usize = 65536;

/// Writes the waiting entries, unless they are few and the end of another line was read already.
pub(crate) fn send_waiting<W: Sink>(
    writer: &mut W,
    output: &mut Vec<u8>,
    read: &[u8],
) -> Result<(), RecordFault>
    ensures ok { OnOk result (SendsFront (W.contents writer.old) (W.contents writer.new) output.old.items output.new.items) }
    ensures err { OnErr result (WritesPart (W.contents writer.old) (W.contents writer.new) output.old.items) }
    ensures fault { IfErr result (λ fault. fault ≡ faults.WriteFault) }
    ensures led { OnOk result (OnlyCalls W.writes writer.old writer.new) }
    ensures cause { OnErr result (HasFailedWrite W.writes W.fails writer.old writer.new) }
{
    if output.len() < FULL && newline_place(read).is_some() {
        return Ok(());
    }
    send(writer, output)?;
    Ok(())
}
