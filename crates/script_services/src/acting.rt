//! RS's events, and what follows from its actions.

ghost use Rattle.std.specs.Prelude.{◌≡◌, Ok, IfOk, OnOk, OnErr};
ghost use Rattle.std.specs.List.{AllByRecursion};
ghost use Rattle.rs_core.specs.Action.{IsActionInPlace};
ghost use Rattle.rs_to_store.specs.Asked.{command_of as command_for};
ghost use Rattle.script_services.specs.Services.{without_settings as answer_without, ServicesAnswer};
ghost use Rattle.script_services.specs.Waiting.{AppendsSome, AppendsService, AppendsTold, AppendsAsked};
ghost use Rattle.script_services.specs.Waiting.{AsksOnly, BeginsService, BeginsTelling};

use crate::servers::Servers;
use ds_held::Limits;
use ds_names::NoRoom;
use ds_replica::Side;
use ds_world::World;
use rs_core::{Action, Actions, Event, Rs, RsFault, steps_say};
use rs_to_store::command_of;
use script_answers::{Wording, append_action, append_action_count, append_reply, append_rs_fault};
use std::alloc::Global;

/// Passes an event to RS at a tick, and sends RS's label changes and sweeps, with RS as their caller, to the store of a
/// side. Appends each action's line, followed by the store's reply, and then the number of actions; or RS's refusal, in
/// which case nothing changes.
///
/// Before settings are accepted no service is known, and no tick is remembered. `Err` means that memory ran out for the
/// answer: none of it was appended. RS has taken its step, and the commands of its first actions went to the store.
pub fn answer_event(
    alloc: Global,
    servers: &mut Servers,
    world: &mut World,
    side: Side,
    event: Event,
    tick: u64,
    output: &mut Vec<u8>,
) -> Result<(), NoRoom>
    ensures answered { OnOk result (AppendsService event tick side
        output.old.items output.new.items servers.old world.old servers.new world.new) }
    ensures unanswered { OnErr result (output.new.items ≡ output.old.items) }
    ensures begun { OnErr result (BeginsService event tick side servers.old world.old servers.new world.new) }
{
    let start = output.len();
    let told = match tell(alloc, &mut servers.services, event, tick) {
        Ok(actions) => pass_on(world, side, &actions, output),
        Err(fault) => append_rs_fault(output, fault),
    };
    match told {
        Ok(()) => Ok(()),
        Err(NoRoom) => {
            output.truncate(start);
            Err(NoRoom)
        }
    }
}

// Passes an event to RS, if it has begun.
fn tell(
    alloc: Global,
    services: &mut Option<Rs>,
    event: Event,
    tick: u64,
) -> Result<Actions, RsFault>
    ensures answer { ServicesAnswer services.old event tick result services.new }
    ensures in_place { IfOk result (AllByRecursion IsActionInPlace) }
{
    steps_say();
    match services {
        Some(rs) => rs.event(event, tick),
        None => without_settings(alloc, &event),
    }
}

// Returns the answer before settings are accepted.
fn without_settings(alloc: Global, event: &Event) -> Result<Actions, RsFault>
    ensures { result ≡ answer_without event.now }
{
    match event {
        Event::Up(_) | Event::Stop(_) | Event::Refresh(_) | Event::Restart(_) => {
            Err(RsFault::UnknownLabel)
        }
        Event::Death(_, _) | Event::Beat(_) => Err(RsFault::OldEndpoint),
        Event::Tick => Ok(Actions::new(alloc)),
    }
}

// Sends the actions to the store of the side, in order. If memory runs out, some of their answers may remain.
fn pass_on(
    world: &mut World,
    side: Side,
    actions: &Actions,
    output: &mut Vec<u8>,
) -> Result<(), NoRoom>
    requires { AllByRecursion IsActionInPlace actions.now }
    ensures told { OnOk result (AppendsTold side (Ok actions.now) output.old.items output.new.items world.old world.new) }
    ensures some { OnErr result (AppendsSome output.old.items output.new.items) }
    ensures begun { OnErr result (BeginsTelling side (Ok actions.now) world.old world.new) }
{
    for index in 0..actions.len() {
        let Some(action) = actions.get(index) else {
            unreachable!()
        };
        append_action(output, action)?;
        ask(world, side, action, output)?;
    }
    append_action_count(output, actions.len())
}

// Sends the command of an action to the store, if it has one, and appends the reply's lines.
fn ask(world: &mut World, side: Side, action: &Action, output: &mut Vec<u8>) -> Result<(), NoRoom>
    requires { IsActionInPlace action.now }
    ensures asked { OnOk result (AppendsAsked side (command_for action.now) output.old.items output.new.items world.old world.new) }
    ensures unanswered { OnErr result (output.new.items ≡ output.old.items) }
    ensures sent { OnErr result (AsksOnly side (command_for action.now) world.old world.new) }
{
    let Some(command) = command_of(action) else {
        return Ok(());
    };
    let reply = world.reply(side, command);
    append_reply(output, Wording::AsMerge, &reply, Limits::larger())
}
