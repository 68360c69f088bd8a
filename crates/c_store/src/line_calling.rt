//! The commands of lines, carried out by a session.

ghost use Rattle.std.specs.Prelude.{◌≡◌};
ghost use Rattle.c_store.specs.Calling.{what_shows, LineAsks, CarriesOut};

use crate::session::Session;
use c_values::Answer;
use ds_names::NoRoom;
use script_commands::ScriptCommand;
use std::alloc::Global;

/// Carries out the command of a line, as a single store does.
///
/// A command of the store is one step of its machine. `show` and `all` copy the held items. Any other command is answered as no
/// request. If memory runs out for an offer's list, or for held items, the answer is a refusal. In these cases, and for a show, the
/// store is unchanged.
pub fn carry_out(alloc: Global, session: &mut Session, command: ScriptCommand, answer: &mut Answer)
    ensures { CarriesOut command session.old answer.new session.new }
{
    match what_shows(&command) {
        Some(all) => session.show(alloc, all, answer),
        None => ask_store(alloc, session, command, answer),
    }
}

// Returns whether a command shows everything held, or only the puts. `None` if it shows nothing.
fn what_shows(command: &ScriptCommand) -> Option<bool>
    ensures { result ≡ what_shows command.now }
{
    match command {
        ScriptCommand::Show => Some(false),
        ScriptCommand::All => Some(true),
        _ => None,
    }
}

// Sends the command of a line to the store, if it is one of the store's.
fn ask_store(alloc: Global, session: &mut Session, command: ScriptCommand, answer: &mut Answer)
    ensures { LineAsks command session.old answer.new session.new }
{
    let wording = command.wording();
    match command.into_store_command(alloc) {
        Ok(Some(command)) => session.answer(wording, command, answer),
        Ok(None) => session.rest(Answer::no_request(), answer),
        Err(NoRoom) => session.refuse(answer),
    }
}
