//! The store command of a line.

ghost use Rattle.std.specs.Prelude.{◌≡◌, ◌∷◌, [], true, IfOk, OnErr};
ghost use Rattle.ds_machine.specs.declared.command.Command.TheVariants as commands;
ghost use Rattle.script_commands.specs.Command.{is_offer, store_command};

use crate::command::ScriptCommand;
use ds_entry::{Item, Items};
use ds_machine::Command;
use ds_names::NoRoom;
use std::alloc::Global;

impl ScriptCommand {
    /// Returns the command that the line sends to a store; `None` if it sends none. An `offer` is a Merge of one item.
    /// Reports NoRoom if memory runs out for the list of that item.
    pub fn into_store_command(self, alloc: Global) -> Result<Option<Command>, NoRoom>
        ensures command { IfOk result (λ command. command ≡ store_command self) }
        ensures room { OnErr result (is_offer self ≡ true) }
    {
        match self {
            ScriptCommand::Offer(item) => Ok(Some(merge_of(alloc, item)?)),
            ScriptCommand::Store(command) => Ok(Some(command)),
            _ => Ok(None),
        }
    }
}

fn merge_of(alloc: Global, item: Item) -> Result<Command, NoRoom>
    ensures { IfOk result (λ command. command ≡ commands.Merge (item ∷ [])) }
{
    let mut items = Items::new(alloc);
    items.push(item)?;
    Ok(Command::Merge { items })
}
