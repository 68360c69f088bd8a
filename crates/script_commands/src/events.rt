//! The world event of a line.

ghost use Rattle.std.specs.Prelude.{◌≡◌, true, IfOk, OnErr};
ghost use Rattle.script_commands.specs.Command.{is_offer};
ghost use Rattle.script_commands.specs.Event.{asked_of, event_of};

use crate::command::ScriptCommand;
use ds_machine::Command;
use ds_names::NoRoom;
use ds_replica::{Event, Side};
use std::alloc::Global;

impl ScriptCommand {
    /// Returns the line's event in a world; a store command goes to the store of `side`. `None` for a line without an
    /// event there: `show`, `all`, `entries`, `ring`, `side`, and those for RS and driver tables. Reports NoRoom if
    /// memory runs out for the list of an `offer`'s one item.
    pub fn into_event(self, alloc: Global, side: Side) -> Result<Option<Event>, NoRoom>
        ensures event { IfOk result (λ event. event ≡ event_of side self) }
        ensures room { OnErr result (is_offer self ≡ true) }
    {
        match self {
            ScriptCommand::Map { query } => Ok(Some(Event::NewMap { query })),
            ScriptCommand::Clear { map } => Ok(Some(Event::ClearMap { map: map as usize })),
            ScriptCommand::Restart { side, incarnation } => {
                Ok(Some(Event::RestartStore { side, incarnation }))
            }
            ScriptCommand::Deliver {
                message,
                holder,
                count,
            } => Ok(Some(Event::Deliver {
                message: message as usize,
                holder,
                count: widened(count),
            })),
            asking => Ok(asked(side, asking.into_store_command(alloc)?)),
        }
    }
}

// Returns the event that sends a command to the store of the side, if there is a command.
fn asked(side: Side, command: Option<Command>) -> Option<Event>
    ensures { result ≡ asked_of side command }
{
    match command {
        Some(command) => Some(Event::Ask { side, command }),
        None => None,
    }
}

// Returns the same count, as a `usize`.
fn widened(count: Option<u32>) -> Option<usize>
    ensures { result ≡ count }
{
    match count {
        Some(count) => Some(count as usize),
        None => None,
    }
}
