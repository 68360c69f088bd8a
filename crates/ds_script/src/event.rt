//! Commands that are events of a world, and the lines of their outcomes.

ghost use Rattle.std.specs.Prelude.{◌≡◌, ◌≢◌, ◌++◌, false, None, OnOk, OnErr};
ghost use Rattle.script_commands.specs.Command.{is_offer};
ghost use Rattle.script_commands.specs.Event.{event_of};
ghost use Rattle.ds_script.specs.Answer.{AppendsEvent, told_lines};

use crate::session::Session;
use ds_held::Limits;
use ds_names::NoRoom;
use ds_replica::Outcome;
use script_answers::{Wording, append_message, append_outcome};
use script_commands::ScriptCommand;
use std::alloc::Global;

/// Applies the event of any command but an offer to the world, and appends its outcome to the output.
pub(crate) fn answer_event(
    alloc: Global,
    session: &mut Session,
    output: &mut Vec<u8>,
    command: ScriptCommand,
) -> Result<(), NoRoom>
    requires event { event_of session.old.side command ≢ None }
    requires other { is_offer command ≡ false }
    ensures answered { OnOk result (AppendsEvent command output.old.items output.new.items session.old session.new) }
    ensures unanswered { OnErr result (output.new.items ≡ output.old.items) }
{
    let wording = command.wording();
    let event = match command.into_event(alloc, session.side()) {
        Ok(Some(event)) => event,
        // Only an offer's event allocates.
        Ok(None) | Err(NoRoom) => unreachable!(),
    };
    let outcome = session.happen(event);
    append_told(alloc, output, wording, &outcome, session)
}

// Appends the lines of an outcome; for a message that was made, those of the reply that it is. Appends nothing if
// memory runs out.
fn append_told(
    alloc: Global,
    output: &mut Vec<u8>,
    wording: Wording,
    outcome: &Outcome,
    session: &Session,
) -> Result<(), NoRoom>
    ensures written { OnOk result (output.new.items ≡ output.old.items ++ told_lines wording outcome.now session.now.world.messages) }
    ensures unchanged { OnErr result (output.new.items ≡ output.old.items) }
{
    let Outcome::Made { message: number } = outcome else {
        return append_outcome(output, wording, outcome, Limits::larger());
    };
    match session.message(*number) {
        Some(message) => append_message(alloc, output, wording, message, Limits::larger()),
        // A session that stands for a world has each message that was made.
        None => Ok(()),
    }
}
