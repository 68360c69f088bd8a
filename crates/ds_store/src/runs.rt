//! Running a list of commands on a store.

ghost use Rattle.std.specs.Prelude.{IfOk, OnErr};
ghost use Rattle.ds_store.specs.Run.{LastRun, RunsFirst};
ghost use Rattle.ds_store.specs.Steps.{ContentSteps};

use crate::store::Store;
use ds_machine::{Command, Reply};
use ds_names::NoRoom;
use std::alloc::Global;

/// Sends the commands to the store in order, and returns its replies: those of a run of the store's machine. Fails with
/// `NoRoom` if a reply can't be kept; the commands up to that one were answered.
pub fn run(alloc: Global, store: &mut Store, commands: Vec<Command>) -> Result<Vec<Reply>, NoRoom>
    ensures done { IfOk result (λ replies. ContentSteps store.old (λ s t. LastRun s commands.items replies.items t) store.new) }
    ensures stopped { OnErr result (ContentSteps store.old (λ s t. RunsFirst s commands.items t) store.new) }
{
    let mut replies = Vec::new(alloc);
    for command in commands {
        let reply = store.apply(command);
        replies.push(reply)?;
    }
    Ok(replies)
}
