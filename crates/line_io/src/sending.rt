//! Writing the buffered output.

ghost use Rattle.std.specs.Prelude.{◌≡◌, [], OnOk, OnErr};
ghost use Rattle.std.specs.Io.KnownBytes.{Appends};
ghost use Rattle.line_io.specs.Streams.{HasFailedWrite, OnlyCalls};
ghost use Rattle.line_io.specs.Transfer.{WritesPart, SendsFront};

use crate::streams::Sink;
use crate::transfer::{WriteFailed, write_out};

/// The size at which the output is written before the next read.
const FULL: usize = 65536;

/// Writes the output if it has 65536 bytes or more.
pub fn send_full<W: Sink>(writer: &mut W, output: &mut Vec<u8>) -> Result<(), WriteFailed>
    ensures ok { OnOk result (SendsFront (W.contents writer.old) (W.contents writer.new) output.old.items output.new.items) }
    ensures err { OnErr result (WritesPart (W.contents writer.old) (W.contents writer.new) output.old.items) }
    ensures led { OnOk result (OnlyCalls W.writes writer.old writer.new) }
    ensures cause { OnErr result (HasFailedWrite W.writes W.fails writer.old writer.new) }
{
    if output.len() < FULL {
        return Ok(());
    }
    match send(writer, output) {
        Ok(()) => Ok(()),
        Err(failed) => Err(failed),
    }
}

/// Writes the output and clears it. If the writer fails, it has taken a prefix of the output.
pub fn send<W: Sink>(writer: &mut W, output: &mut Vec<u8>) -> Result<(), WriteFailed>
    ensures ok { OnOk result (Appends (W.contents writer.old) (W.contents writer.new) output.old.items × (output.new.items ≡ [])) }
    ensures err { OnErr result (WritesPart (W.contents writer.old) (W.contents writer.new) output.old.items) }
    ensures led { OnOk result (OnlyCalls W.writes writer.old writer.new) }
    ensures cause { OnErr result (HasFailedWrite W.writes W.fails writer.old writer.new) }
{
    match write_out(writer, output.as_slice()) {
        Ok(()) => {
            output.clear();
            Ok(())
        }
        Err(failed) => Err(failed),
    }
}
