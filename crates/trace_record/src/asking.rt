//! Applies an entry's command to a store.

ghost use Rattle.std.specs.Prelude.{◌≡◌, ◌≢◌, None, IfOk};
ghost use Rattle.trace_walk.specs.declared.asked.Asked.TheVariants as askeds;
ghost use Rattle.trace_walk.specs.Text.{command_asked, worded_as};
ghost use Rattle.script_commands.specs.Command.{store_command};
ghost use Rattle.trace_walk.specs.Sweeping.{SweepsAs};
ghost use Rattle.trace_record.specs.Stepping.{StepsAsSaid, StepsBy};

use ds_held::Limits;
use ds_machine::{Command, Reply};
use ds_names::NoRoom;
use ds_store::Store;
use script_answers::Wording;
use script_commands::ScriptCommand;
use std::alloc::Global;
use trace_walk::{Asked, Format, Sweep, older, sweep_older};

/// The answer of a store to an entry's command: its reply, and the wording of the reply's lines.
#[derive(Drop)]
pub(crate) struct Answer {
    pub wording: Wording,
    pub reply: Reply,
}

/// Applies an entry's command to a store: one step of the trace's store. A sweep of format 1 leaves tombstones;
/// everything else is the store's own command.
///
/// NoRoom: out of memory for a command, or in the middle of such a sweep. The store is then no longer the trace's.
pub(crate) fn ask_store(
    alloc: Global,
    store: &mut Store,
    format: Format,
    asked: Asked,
) -> Result<Answer, NoRoom>
    requires { command_asked asked ≢ None }
    ensures step { IfOk result (λ answer. StepsBy store.old format asked answer.reply store.new) }
    ensures wording { IfOk result (λ answer. answer.wording ≡ worded_as asked) }
{
    match asked {
        Asked::Line(command) => ask_line(alloc, store, format, command),
        Asked::Merge(items) => Ok(Answer {
            wording: Wording::AsMerge,
            reply: store.apply(Command::Merge { items }),
        }),
    }
}

// Applies the command of one line.
fn ask_line(
    alloc: Global,
    store: &mut Store,
    format: Format,
    command: ScriptCommand,
) -> Result<Answer, NoRoom>
    requires { store_command command ≢ None }
    ensures step { IfOk result (λ answer. StepsBy store.old format (askeds.Line command) answer.reply store.new) }
    ensures wording { IfOk result (λ answer. answer.wording ≡ worded_as (askeds.Line command)) }
{
    let wording = command.wording();
    if let Some(sweep) = older(&command, format) {
        return ask_older(alloc, store, sweep, wording);
    }
    ask_plain(alloc, store, command, wording)
}

// Applies a sweep of format 1, whose reply has this wording.
fn ask_older(
    alloc: Global,
    store: &mut Store,
    sweep: Sweep,
    wording: Wording,
) -> Result<Answer, NoRoom>
    ensures step { IfOk result (λ answer. SweepsAs store.old sweep answer.reply store.new) }
    ensures wording { IfOk result (λ answer. answer.wording ≡ wording) }
{
    let (reply, _merges) = sweep_older(alloc, store, 0, Limits::smaller(), sweep)?;
    Ok(Answer { wording, reply })
}

// Applies the store's own command, whose reply has this wording.
fn ask_plain(
    alloc: Global,
    store: &mut Store,
    command: ScriptCommand,
    wording: Wording,
) -> Result<Answer, NoRoom>
    requires { store_command command ≢ None }
    ensures step { IfOk result (λ answer. StepsAsSaid store.old command answer.reply store.new) }
    ensures wording { IfOk result (λ answer. answer.wording ≡ wording) }
{
    match command.into_store_command(alloc)? {
        Some(command) => Ok(Answer {
            wording,
            reply: store.apply(command),
        }),
        None => unreachable!(),
    }
}
