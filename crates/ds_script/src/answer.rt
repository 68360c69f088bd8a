//! Runs commands, and appends their answers.

ghost use Rattle.std.specs.Prelude.{◌≡◌, ◌≤◌, ◌++◌, false, IfErr, OnOk, OnErr};
ghost use Rattle.script_answers.specs.Outcome.{ring_line};
ghost use Rattle.script_answers.specs.Reply.{refused_noroom};
ghost use Rattle.script_commands.specs.Command.{IsCommand, is_offer};
ghost use Rattle.script_commands.specs.ServiceEvent.{request_event};
ghost use Rattle.script_commands.specs.declared.fault.CommandFault.TheVariants as faults;
ghost use Rattle.ds_script.specs.Answer.{AppendsCommand, AppendsRing, AppendsSide};

use crate::entries::append_entries;
use crate::event::answer_event;
use crate::session::Session;
use crate::shown::append_shown;
use ds_names::{Name, NoRoom};
use ds_replica::Side;
use rs_core::Event;
use script_answers::{append_noroom, append_ring, append_side};
use script_commands::{CommandFault, Request, ScriptCommand};
use std::alloc::Global;
use std::mem::swap;

/// Runs any command but an offer, and appends its answer to the output. Not inlined: its locals would be cleared for
/// every line.
///
/// A command for which memory runs out is refused by name, and changes nothing. `Err`: out of memory for the answer
/// itself, of which nothing is appended.
#[inline(never)]
pub(crate) fn answer_command(
    alloc: Global,
    session: &mut Session,
    output: &mut Vec<u8>,
    command: ScriptCommand,
) -> Result<(), NoRoom>
    requires written { IsCommand command }
    requires other { is_offer command ≡ false }
    ensures answered { OnOk result (AppendsCommand command output.old.items output.new.items session.old session.new) }
    ensures unanswered { OnErr result (output.new.items ≡ output.old.items) }
{
    match command {
        ScriptCommand::Show => append_shown(alloc, session.held(), output, false),
        ScriptCommand::All => append_shown(alloc, session.held(), output, true),
        ScriptCommand::Entries { map } => append_entries(alloc, session.map(map), output),
        ScriptCommand::Ring { ring } => answer_ring(alloc, session, output, ring),
        ScriptCommand::Side { side } => answer_side(session, output, side),
        ScriptCommand::Settings { text } => session.accept(alloc, text, output),
        ScriptCommand::Service {
            request,
            label,
            tick,
        } => session.serve(alloc, requested(request, label), tick, output),
        ScriptCommand::Death {
            endpoint,
            cause,
            tick,
        } => session.serve(alloc, Event::Death(endpoint, cause), tick, output),
        ScriptCommand::Beat { endpoint, tick } => {
            session.serve(alloc, Event::Beat(endpoint), tick, output)
        }
        ScriptCommand::Tick { tick } => session.serve(alloc, Event::Tick, tick, output),
        ScriptCommand::Assign { device, label } => session.assign(device, label, output),
        ScriptCommand::Follow { map } => session.follow(alloc, map, output),
        ScriptCommand::Submit {
            server,
            id,
            unit,
            map,
        } => session.submit(alloc, server, id, unit, map, output),
        ScriptCommand::Reply {
            server,
            endpoint,
            id,
        } => session.reply(server, endpoint, id, output),
        asking => answer_event(alloc, session, output, asking),
    }
}

// Opens the session anew, with journals that keep `ring` items. Not inlined: every answer's frame would hold two
// worlds.
#[inline(never)]
fn answer_ring(
    alloc: Global,
    session: &mut Session,
    output: &mut Vec<u8>,
    ring: u32,
) -> Result<(), NoRoom>
    requires { (1 ≤ ring) × (ring ≤ 4096) }
    ensures answered { OnOk result (AppendsRing ring output.old.items output.new.items session.old session.new) }
    ensures unanswered { OnErr result (output.new.items ≡ output.old.items) }
{
    match Session::open(alloc, ring) {
        Ok(mut opened) => answer_opened(session, &mut opened, output, ring),
        Err(_) => append_noroom(output),
    }
}

// Appends the answer to `ring`, and swaps in the new session.
fn answer_opened(
    session: &mut Session,
    opened: &mut Session,
    output: &mut Vec<u8>,
    ring: u32,
) -> Result<(), NoRoom>
    ensures answered { OnOk result ((output.new.items ≡ output.old.items ++ ring_line ring) × (session.new ≡ opened.old)) }
    ensures unanswered { OnErr result (output.new.items ≡ output.old.items) }
{
    append_ring(output, ring)?;
    swap(session, opened);
    Ok(())
}

// Returns RS's event for a request about a label.
fn requested(request: Request, label: Name) -> Event
    ensures { result ≡ request_event request label }
{
    match request {
        Request::Up => Event::Up(label),
        Request::Down => Event::Stop(label),
        Request::Refresh => Event::Refresh(label),
        Request::Restart => Event::Restart(label),
    }
}

// Makes the store of a side the current one.
fn answer_side(session: &mut Session, output: &mut Vec<u8>, side: Side) -> Result<(), NoRoom>
    ensures answered { OnOk result (AppendsSide side output.old.items output.new.items session.old session.new) }
    ensures unanswered { OnErr result (output.new.items ≡ output.old.items) }
{
    append_side(output, side)?;
    session.turn_to(side);
    Ok(())
}

/// Answers a line that couldn't be read as a command: `refused noroom` if memory ran out, nothing if the line is bad.
pub(crate) fn answer_unread(output: &mut Vec<u8>, fault: CommandFault) -> Result<(), CommandFault>
    ensures answered { OnOk result ((fault ≡ faults.NoRoom) × (output.new.items ≡ output.old.items ++ refused_noroom)) }
    ensures unanswered { OnErr result (output.new.items ≡ output.old.items) }
    ensures told { IfErr result (λ told. told ≡ fault) }
{
    match fault {
        CommandFault::NoRoom => match append_noroom(output) {
            Ok(()) => Ok(()),
            Err(NoRoom) => Err(CommandFault::NoRoom),
        },
        bad => Err(bad),
    }
}
