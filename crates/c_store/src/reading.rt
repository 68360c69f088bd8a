//! Reading the command of a line.

ghost use Rattle.std.specs.Prelude.{◌≡◌, ◌≤◌, ◌+◌, length, take, IfOk, IfErr};
ghost use Rattle.ds_line.specs.declared.expected.Expected.TheVariants.{Limit};
ghost use Rattle.line_io.specs.Lines.{IsUnbroken, with_newline};
ghost use Rattle.script_commands.specs.Command.{IsLineOf, IsCommandLineFault};
ghost use Rattle.script_commands.specs.declared.fault.CommandFault.TheVariants.{BadLine};
ghost use Rattle.c_store.specs.Line.{ReadsBytes};

use ds_line::Expected;
use line_io::{LONGEST_LINE, newline_place};
use script_commands::{CommandFault, ScriptCommand, read_command, read_line};
use std::alloc::Global;

// The longest line that is copied to a small block for its newline. `read_command` reads longer ones, and clears a larger block.
const SHORT_LINE: usize = 255;

/// Reads the command of a line, whose newline may be missing. Refuses bytes after the newline as BadLine, at the first of them. Then
/// refuses a line that isn't a command as BadLine, at its first bad part. Then reports NoRoom if memory runs out.
pub fn read_bytes(alloc: Global, bytes: &[u8]) -> Result<ScriptCommand, CommandFault>
    ensures { ReadsBytes bytes.now result }
{
    match newline_place(bytes) {
        None => read_unended(alloc, bytes),
        Some(place) => {
            if place + 1 < bytes.len() {
                return Err(bad_at(place + 1));
            }
            if place > LONGEST_LINE {
                return Err(bad_at(LONGEST_LINE));
            }
            read_line(alloc, bytes)
        }
    }
}

// Reads the command of a line without a newline.
fn read_unended(alloc: Global, line: &[u8]) -> Result<ScriptCommand, CommandFault>
    requires { IsUnbroken line.now }
    ensures found { IfOk result (λ command. IsLineOf command line.now) }
    ensures fault { IfErr result (λ fault. IsCommandLineFault fault line.now) }
{
    if line.len() > SHORT_LINE {
        return read_command(alloc, line);
    }
    let mut block = [0; SHORT_LINE + 1];
    end_line(line, &mut block);
    read_line(alloc, &block[..line.len() + 1])
}

// Copies a line to the front of a block, and appends a newline.
fn end_line(line: &[u8], block: &mut [u8; SHORT_LINE + 1])
    requires { length line.now ≤ 255 }
    ensures { take (length line.now + 1) block.new ≡ with_newline line.now }
{
    block[..line.len()].copy_from_slice(line);
    block[line.len()] = b'\n';
}

// Returns the fault of a line whose first bad part begins at a byte.
fn bad_at(place: usize) -> CommandFault
    ensures { result ≡ BadLine place Limit }
{
    CommandFault::BadLine {
        place,
        expected: Expected::Limit,
    }
}
