//! The first line of a script, and the later ones.

ghost use Rattle.std.specs.Prelude.{◌≡◌, ◌≢◌, ◌↔◌, ℕ, List, IsTrue};
ghost use Rattle.std.specs.Char.{is_ascii_alphanumeric};
ghost use Rattle.line_io.specs.Lines.{EndsLine};
ghost use Rattle.ds_names.specs.Run.{Begins};
ghost use Rattle.script_commands.specs.Command.{ReadsCommand};
ghost use Rattle.script_commands.specs.Later.{ReadsLater};
ghost use Rattle.script_commands.specs.Words.{text_of};
ghost use Rattle.script_commands.specs.declared.word.Word.TheVariants as words;

use crate::command::ScriptCommand;
use crate::fault::CommandFault;
use crate::reading::read_line;
use ds_line::{Expected, word_at};
use std::alloc::Global;

/// Reads the command of a line that has `before` lines before it in its script. The line ends with its newline and has
/// no other. Like `read_line`, but `ring` is a word of the first line only: on a later line it is unknown, so that line
/// is bad at place 0.
#[inline(always)]
pub fn read_line_after(
    alloc: Global,
    line: &[u8],
    before: u64,
) -> Result<ScriptCommand, CommandFault>
    requires { EndsLine line.now }
    ensures first { before ≡ 0 → ReadsCommand line.now result }
    ensures later { before ≢ 0 → ReadsLater line.now result }
{
    if before > 0 && has_ring(line) {
        return Err(CommandFault::BadLine {
            place: 0,
            expected: Expected::Command,
        });
    }
    read_line(alloc, line)
}

// Returns whether a line's word is `ring`. It reads the word only if these bytes begin the line: most lines begin
// otherwise, and `read_line` reads their word anyway.
fn has_ring(line: &[u8]) -> bool
    ensures { IsTrue result ↔ ((rest : List ℕ) × Begins is_ascii_alphanumeric line.now (text_of words.Ring) rest) }
{
    match line {
        [b'r', b'i', b'n', b'g', ..] => {
            let (word, _) = word_at(line);
            word == b"ring".as_slice()
        }
        _ => false,
    }
}
