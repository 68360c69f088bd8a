//! Readers of whole lines.

ghost use Rattle.std.specs.Prelude.{◌≡◌, ◌≤◌, ◌+◌, length, take, IfOk, IfErr};
ghost use Rattle.line_io.specs.Lines.{EndsLine, IsUnbroken, with_newline};
ghost use Rattle.script_commands.specs.Command.{ReadsCommand, IsLineOf, IsCommandLineFault};
ghost use Rattle.script_commands.specs.Row.{TakesRow};

use crate::command::ScriptCommand;
use crate::fault::{CommandFault, fault_after_word};
use crate::lines::{
    all_at, check_at, delete_at, entries_at, map_at, nameof_at, offer_at, publish_at, retrieve_at,
    show_at, subscribe_at, sweep_at,
};
use crate::pieces::Rest;
use crate::scope_lines::{page_at, since_at, snapshot_at};
use crate::service_lines::{beat_at, death_at, service_at, settings_at, tick_at};
use crate::table_lines::{assign_at, follow_at, reply_at, submit_at};
use crate::word::{Word, word_front};
use crate::world_lines::{clear_at, deliver_at, restart_at, ring_at, side_at};
use ds_line::{Expected, PartFault};
use line_io::LONGEST_LINE;
use std::alloc::Global;

/// Reads the command of a line, which comes without its newline and has none in it.
///
/// Refuses a line that isn't a command as BadLine, with the place and kind of its first bad part; the newline is the
/// last part. A line above 4096 bytes is bad at place 4096, whatever it holds. An unknown word is bad at place 0.
/// NoRoom is possible only for a command with a text, a blob, a pattern or settings.
pub fn read_command(alloc: Global, line: &[u8]) -> Result<ScriptCommand, CommandFault>
    requires { IsUnbroken line.now }
    ensures found { IfOk result (λ command. IsLineOf command line.now) }
    ensures fault { IfErr result (λ fault. IsCommandLineFault fault line.now) }
{
    if line.len() > LONGEST_LINE {
        return Err(CommandFault::BadLine {
            place: LONGEST_LINE,
            expected: Expected::Limit,
        });
    }
    let mut block = [0; LONGEST_LINE + 1];
    end_line(line, &mut block);
    read_line(alloc, &block[..line.len() + 1])
}

// Writes a line and a newline to the front of a block.
fn end_line(line: &[u8], block: &mut [u8; LONGEST_LINE + 1])
    requires { length line.now ≤ 4096 }
    ensures { take (length line.now + 1) block.new ≡ with_newline line.now }
{
    block[..line.len()].copy_from_slice(line);
    block[line.len()] = b'\n';
}

/// Reads the command of a line, which ends with its newline and has no other. The caller judges its length.
#[inline(always)]
pub fn read_line(alloc: Global, line: &[u8]) -> Result<ScriptCommand, CommandFault>
    requires { EndsLine line.now }
    ensures { ReadsCommand line.now result }
{
    let Some((word, bytes)) = word_front(line) else {
        return Err(CommandFault::BadLine {
            place: 0,
            expected: Expected::Command,
        });
    };
    let mut rest = Rest {
        bytes,
        expected: Expected::Space,
    };
    let command = match after_word(alloc, word, &mut rest) {
        Ok(command) => command,
        Err(stop) => return Err(fault_after_word(line, stop, rest.expected)),
    };
    Ok(command)
}

// Reads what follows a command's word.
#[inline(always)]
fn after_word(alloc: Global, word: Word, rest: &mut Rest) -> Result<ScriptCommand, PartFault>
    ensures { TakesRow word rest.old.bytes.now result }
{
    match word {
        Word::Offer => offer_at(alloc, rest),
        Word::Show => show_at(rest),
        Word::All => all_at(rest),
        Word::Publish => publish_at(alloc, rest),
        Word::Delete => delete_at(rest),
        Word::Sweep => sweep_at(rest),
        Word::Retrieve => retrieve_at(rest),
        Word::NameOf => nameof_at(rest),
        Word::Subscribe => subscribe_at(alloc, rest),
        Word::Check => check_at(rest),
        Word::Map => map_at(alloc, rest),
        Word::Entries => entries_at(rest),
        Word::Ring => ring_at(rest),
        Word::Side => side_at(rest),
        Word::Clear => clear_at(rest),
        Word::Restart => restart_at(rest),
        Word::Deliver => deliver_at(rest),
        Word::Since => since_at(alloc, rest),
        Word::Snapshot => snapshot_at(alloc, rest),
        Word::Page => page_at(alloc, rest),
        Word::Settings => settings_at(alloc, rest),
        Word::Service => service_at(rest),
        Word::Death => death_at(rest),
        Word::Beat => beat_at(rest),
        Word::Tick => tick_at(rest),
        Word::Assign => assign_at(rest),
        Word::Follow => follow_at(rest),
        Word::Submit => submit_at(rest),
        Word::Reply => reply_at(rest),
    }
}
