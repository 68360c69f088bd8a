//! One line, and its answer.

ghost use Rattle.std.specs.Prelude.{◌≡◌, ℕ, List, IfErr, OnOk, OnErr};
ghost use Rattle.line_io.specs.Lines.{EndsLine, with_newline};
ghost use Rattle.ds_script.specs.Answer.{AppendsLine};
ghost use Rattle.ds_script.specs.Progress.{IsUnendedFault, KeepsSession};

use crate::answer::{answer_command, answer_unread};
use crate::fast::{fast_offer, fast_publish, fast_retrieve};
use crate::session::Session;
use ds_line::Expected;
use ds_names::NoRoom;
use line_io::LONGEST_LINE;
use script_commands::{CommandFault, is_offer, is_publish, is_retrieve, read_line_after};
use std::alloc::Global;

/// Answers one line, given with its newline, after `before` others. `Err`: the line isn't a command, and nothing
/// changes; or out of memory for its answer.
pub(crate) fn answer_line(
    alloc: Global,
    line: &[u8],
    before: u64,
    session: &mut Session,
    output: &mut Vec<u8>,
) -> Result<(), CommandFault>
    requires { EndsLine line.now }
    ensures ok { OnOk result (AppendsLine before line.now output.old.items output.new.items session.old session.new) }
    ensures err { OnErr result (output.new.items ≡ output.old.items) }
    ensures fault { IfErr result (λ fault. (text : List ℕ) → line.now ≡ with_newline text → IsUnendedFault before fault text) }
    ensures kept { IfErr result (λ fault. KeepsSession fault session.old session.new) }
{
    if line.len() > LONGEST_LINE + 1 {
        return Err(CommandFault::BadLine {
            place: LONGEST_LINE,
            expected: Expected::Limit,
        });
    }
    if is_offer(line) {
        return fast_offer(alloc, line, session, output);
    }
    if is_publish(line) {
        return fast_publish(alloc, line, session, output);
    }
    if is_retrieve(line) {
        return fast_retrieve(line, session, output);
    }
    let command = match read_line_after(alloc, line, before) {
        Ok(command) => command,
        Err(fault) => return answer_unread(output, fault),
    };
    match answer_command(alloc, session, output, command) {
        Ok(()) => Ok(()),
        Err(NoRoom) => Err(CommandFault::NoRoom),
    }
}
