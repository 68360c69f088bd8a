//! Fast answers to the lines that most scripts consist of: offers, publications and retrievals.
//!
//! Each promises what `answer_line` promises, for the lines of one word, after any number of lines. It parses the line
//! by a fast reader of `script_commands` and takes the store's reply itself, so it clears no space for other commands'
//! parts and builds neither event nor outcome. docs/design/fast-ways.md says what that saves.

ghost use Rattle.std.specs.Prelude.{◌≡◌, ◌≤◌, ℕ, List, false, length, IfErr, OnOk, OnErr};
ghost use Rattle.line_io.specs.Lines.{EndsLine, with_newline};
ghost use Rattle.ds_replica.specs.Happens.{gives_items};
ghost use Rattle.script_commands.specs.Fast.{IsOffer, IsPublish, IsRetrieve};
ghost use Rattle.script_commands.specs.declared.command.ScriptCommand.TheVariants.{Offer, Store};
ghost use Rattle.ds_script.specs.Answer.{AppendsEvent, AppendsLine};
ghost use Rattle.ds_script.specs.Progress.{IsUnendedFault, KeepsSession};

use crate::answer::answer_unread;
use crate::session::Session;
use ds_entry::Item;
use ds_held::Limits;
use ds_machine::Command;
use ds_names::NoRoom;
use script_answers::{Wording, append_offered, append_reply};
use script_commands::{CommandFault, Publication};
use std::alloc::Global;

/// Answers an offer's line. Not inlined: its item is parsed into this frame, and isn't copied.
#[inline(never)]
pub(crate) fn fast_offer(
    alloc: Global,
    line: &[u8],
    session: &mut Session,
    output: &mut Vec<u8>,
) -> Result<(), CommandFault>
    requires line { EndsLine line.now }
    requires offer { IsOffer line.now }
    requires short { length line.now ≤ 4097 }
    ensures ok { OnOk result ((before : ℕ) → AppendsLine before line.now output.old.items output.new.items session.old session.new) }
    ensures err { OnErr result (output.new.items ≡ output.old.items) }
    ensures fault { IfErr result (λ fault. (before : ℕ) (text : List ℕ) → line.now ≡ with_newline text → IsUnendedFault before fault text) }
    ensures kept { IfErr result (λ fault. KeepsSession fault session.old session.new) }
{
    let mut slot = None;
    match script_commands::fast_offer(alloc, line, &mut slot) {
        Ok(()) => {}
        Err(fault) => return answer_unread(output, fault),
    }
    let Some(item) = &slot else { unreachable!() };
    match answer_offer(session, output, item) {
        Ok(()) => Ok(()),
        Err(NoRoom) => Err(CommandFault::NoRoom),
    }
}

/// Answers a publication's line. Not inlined, likewise.
#[inline(never)]
pub(crate) fn fast_publish(
    alloc: Global,
    line: &[u8],
    session: &mut Session,
    output: &mut Vec<u8>,
) -> Result<(), CommandFault>
    requires line { EndsLine line.now }
    requires publish { IsPublish line.now }
    requires short { length line.now ≤ 4097 }
    ensures ok { OnOk result ((before : ℕ) → AppendsLine before line.now output.old.items output.new.items session.old session.new) }
    ensures err { OnErr result (output.new.items ≡ output.old.items) }
    ensures fault { IfErr result (λ fault. (before : ℕ) (text : List ℕ) → line.now ≡ with_newline text → IsUnendedFault before fault text) }
    ensures kept { IfErr result (λ fault. KeepsSession fault session.old session.new) }
{
    let publication = match script_commands::fast_publish(alloc, line) {
        Ok(publication) => publication,
        Err(fault) => return answer_unread(output, fault),
    };
    let Publication {
        caller,
        key,
        version,
        value,
        overwrite,
    } = publication;
    let command = Command::Publish {
        caller,
        key,
        version,
        value,
        overwrite,
    };
    match answer_asked(session, output, command) {
        Ok(()) => Ok(()),
        Err(NoRoom) => Err(CommandFault::NoRoom),
    }
}

/// Answers a retrieval's line. Not inlined, likewise.
#[inline(never)]
pub(crate) fn fast_retrieve(
    line: &[u8],
    session: &mut Session,
    output: &mut Vec<u8>,
) -> Result<(), CommandFault>
    requires line { EndsLine line.now }
    requires retrieve { IsRetrieve line.now }
    requires short { length line.now ≤ 4097 }
    ensures ok { OnOk result ((before : ℕ) → AppendsLine before line.now output.old.items output.new.items session.old session.new) }
    ensures err { OnErr result (output.new.items ≡ output.old.items) }
    ensures fault { IfErr result (λ fault. (before : ℕ) (text : List ℕ) → line.now ≡ with_newline text → IsUnendedFault before fault text) }
    ensures kept { IfErr result (λ fault. KeepsSession fault session.old session.new) }
{
    let key = match script_commands::fast_retrieve(line) {
        Ok(key) => key,
        Err(fault) => return answer_unread(output, fault),
    };
    match answer_asked(session, output, Command::Retrieve { key }) {
        Ok(()) => Ok(()),
        Err(NoRoom) => Err(CommandFault::NoRoom),
    }
}

// Answers an offer: the store merges its one item.
fn answer_offer(session: &mut Session, output: &mut Vec<u8>, item: &Item) -> Result<(), NoRoom>
    ensures answered { OnOk result (AppendsEvent (Offer item.now) output.old.items output.new.items session.old session.new) }
    ensures unanswered { OnErr result (output.new.items ≡ output.old.items) }
{
    let reply = session.fast_offer(item);
    append_offered(output, &reply, Limits::larger())
}

// Answers a store's command whose reply has no items.
#[inline(always)]
fn answer_asked(session: &mut Session, output: &mut Vec<u8>, command: Command) -> Result<(), NoRoom>
    requires { gives_items command ≡ false }
    ensures answered { OnOk result (AppendsEvent (Store command) output.old.items output.new.items session.old session.new) }
    ensures unanswered { OnErr result (output.new.items ≡ output.old.items) }
{
    let reply = session.ask(command);
    append_reply(output, Wording::AsMerge, &reply, Limits::larger())
}
