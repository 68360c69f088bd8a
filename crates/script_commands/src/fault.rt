//! Why a line can't be read.

ghost use Rattle.std.specs.Prelude.{Err};
ghost use Rattle.line_io.specs.Lines.{EndsLine};
ghost use Rattle.script_commands.specs.Command.{ReadsCommand};
ghost use Rattle.script_commands.specs.Front.{StopsAfterWord};

use ds_line::{Expected, PartFault};
use thiserror::Error;

/// Why a line can't be read as a command.
#[derive(Clone, Copy, Debug, Error)]
pub enum CommandFault {
    /// The line isn't a command. Its first bad part begins at `place`, a byte counted from 0; `expected` is the part
    /// that was expected there.
    #[error("the line can't be read from byte {place} on")]
    BadLine { place: usize, expected: Expected },
    /// Out of memory.
    #[error("out of memory")]
    NoRoom,
}

/// Returns the fault of a line that begins with a command's word and whose reader stopped after it, at the part that
/// was expected.
#[inline(always)]
pub(crate) fn fault_after_word(line: &[u8], stop: PartFault, expected: Expected) -> CommandFault
    requires line { EndsLine line.now }
    requires stop { StopsAfterWord line.now stop }
    ensures { ReadsCommand line.now (Err result) }
{
    match stop {
        PartFault::BadPart { left } => CommandFault::BadLine {
            place: line.len() - left,
            expected,
        },
        PartFault::NoRoom => CommandFault::NoRoom,
    }
}
