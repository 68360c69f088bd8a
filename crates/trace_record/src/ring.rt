//! An input's first line, `ring N`, which sets how many items the journal keeps.

ghost use Rattle.std.specs.Prelude.{◌≡◌, ◌↔◌, ℕ, true, IfOk};
ghost use Rattle.line_io.specs.Lines.{EndsLine};
ghost use Rattle.script_commands.specs.declared.command.ScriptCommand.{ScriptCommand};
ghost use Rattle.trace_record.specs.Reading.{SaysRing};

use crate::fault::RecordFault;
use ds_names::NoRoom;
use script_commands::{CommandFault, ScriptCommand, read_line};
use std::alloc::Global;

/// How many items the journal keeps without such a line.
pub(crate) const RING: u32 = 256;

/// Returns the N of the line that was reached, if that is `ring N`. `line` has its newline.
pub(crate) fn ring_of(
    alloc: Global,
    next: Result<bool, RecordFault>,
    line: &[u8],
) -> Result<Option<u32>, NoRoom>
    requires { next ≡ Ok true → EndsLine line.now }
    ensures { IfOk result (SaysRing next line.now) }
{
    match next {
        Ok(true) => {}
        _ => return Ok(None),
    }
    ring_asked(&read_line(alloc, line))
}

// Returns the N of a line that was parsed, if that is `ring N`.
fn ring_asked(read: &Result<ScriptCommand, CommandFault>) -> Result<Option<u32>, NoRoom>
    ensures { IfOk result (λ ring. (n : ℕ) → (ring ≡ Some n) ↔ (read.now ≡ Ok (ScriptCommand.Ring n))) }
{
    match read {
        Ok(ScriptCommand::Ring { ring }) => Ok(Some(*ring)),
        Err(CommandFault::NoRoom) => Err(NoRoom),
        _ => Ok(None),
    }
}
