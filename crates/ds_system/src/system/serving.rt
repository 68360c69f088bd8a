//! RS's events.

ghost use Rattle.std.specs.Prelude.{◌≡◌, ◌<◌, ◌≤◌, ◌+◌, ◌++◌, ◌∷◌, [], true, length, vec_len, vec_capacity, IfNone, IfSome};
ghost use Rattle.std.specs.List.{AllByRecursion};
ghost use Rattle.rs_core.specs.Action.{IsActionInPlace};
ghost use Rattle.rs_core.specs.Planning.{acts};
ghost use Rattle.rs_core.specs.Run.{offers};
ghost use Rattle.rs_to_store.specs.Asked.{command_of as command_for, commands};
ghost use Rattle.ds_system.specs.declared.event.SystemEvent.TheVariants as events;
ghost use Rattle.ds_system.specs.Stands.{SystemEventLeads};
ghost use Rattle.ds_system.specs.Effects.{AskedIfAny, AllAsked};

use crate::outcome::{SystemFault, SystemOutcome};
use crate::replies::Replies;
use crate::system::System;
use ds_entry::Change;
use ds_machine::Reply;
use ds_names::NoRoom;
use ds_replica::Side;
use ds_world::World;
use rs_core::{Action, Actions, Event, Plan, RsFault, steps_say};
use rs_to_store::command_of;
use std::alloc::Global;

/// The most actions of one event: a kill, a tombstone of a label, a sweep, a start and a label's put.
const MOST_ACTIONS: usize = 5;

// Appends the change that an action offers. The list has room for one.
fn note(alloc: Global, made: &mut Vec<Change>, action: &Action)
    requires in_place { IsActionInPlace action.now }
    requires room { vec_len made.old < vec_capacity made.old }
    ensures items { made.new.items ≡ made.old.items ++ offers (action.now ∷ []) }
    ensures capacity { vec_capacity made.new ≡ vec_capacity made.old }
{
    if let Action::Offer(change) = action {
        let Ok(copy) = change.copy(alloc) else {
            unreachable!()
        };
        made.push_reserved(copy);
    }
}

// Sends the command of an action to the store of a side, if it has one, and appends the reply. The list has room for
// one.
fn ask(world: &mut World, side: Side, action: &Action, replies: &mut Vec<Reply>)
    requires in_place { IsActionInPlace action.now }
    requires room { vec_len replies.old < vec_capacity replies.old }
    ensures asked { AskedIfAny side (command_for action.now) replies.old.items replies.new.items world.old world.new }
    ensures capacity { vec_capacity replies.new ≡ vec_capacity replies.old }
{
    if let Some(command) = command_of(action) {
        replies.push_reserved(world.reply(side, command));
    }
}

// Sends RS's label changes and sweeps to the store of a side, in order. The lists have room for the changes and the
// replies.
fn pass_on(
    alloc: Global,
    world: &mut World,
    made: &mut Vec<Change>,
    actions: &Actions,
    side: Side,
    replies: &mut Vec<Reply>,
)
    requires in_place { AllByRecursion IsActionInPlace actions.now }
    requires room { vec_len made.old + length actions.now ≤ vec_capacity made.old }
    requires space { length actions.now ≤ vec_capacity replies.old }
    requires none { replies.old.items ≡ [] }
    ensures made { made.new.items ≡ made.old.items ++ offers actions.now }
    ensures asked { AllAsked side (commands actions.now) replies.new.items world.old world.new }
{
    for index in 0..actions.len() {
        let Some(action) = actions.get(index) else {
            unreachable!()
        };
        note(alloc, made, action);
        ask(world, side, action, replies);
    }
}

// Makes room for the changes that a plan's actions offer, and returns a list with room for the replies; `None` if
// memory runs out. A plan without actions takes no memory.
fn room_for(alloc: Global, made: &mut Vec<Change>, plan: &Plan) -> Option<Vec<Reply>>
    ensures none { IfSome result (λ replies. replies.items ≡ []) }
    ensures room { IfSome result (λ replies. acts plan.now ≡ true → 5 ≤ vec_capacity replies) }
    ensures space { IfSome result (λ replies. acts plan.now ≡ true → vec_len made.new + 5 ≤ vec_capacity made.new) }
    ensures wanted { IfNone result (acts plan.now ≡ true) }
    ensures made { made.new.items ≡ made.old.items }
{
    if !plan.acts() {
        return Some(Vec::new(alloc));
    }
    let Ok(()) = made.reserve(MOST_ACTIONS) else {
        return None;
    };
    match Vec::with_capacity(alloc, MOST_ACTIONS) {
        Ok(replies) => Some(replies),
        Err(_) => None,
    }
}

impl System {
    // Passes an event to RS. If memory runs out, which it does only for an event with actions, RS doesn't get it.
    pub(super) fn serve(&mut self, event: Event, tick: u64, side: Side) -> SystemOutcome
        ensures { SystemEventLeads (events.Service event tick side) result self.old self.new }
    {
        steps_say();
        let plan = match self.rs.plan(&event, tick) {
            Ok(plan) => plan,
            Err(fault) => return SystemOutcome::Refused(SystemFault::Service(fault)),
        };
        let Some(mut replies) = room_for(self.alloc, &mut self.made, &plan) else {
            return SystemOutcome::Refused(SystemFault::Service(RsFault::NoRoom));
        };
        match self.rs.carry_out(plan) {
            Ok(actions) => {
                pass_on(
                    self.alloc,
                    &mut self.world,
                    &mut self.made,
                    &actions,
                    side,
                    &mut replies,
                );
                SystemOutcome::Acted {
                    actions,
                    replies: Replies::of(replies),
                }
            }
            Err(NoRoom) => SystemOutcome::Refused(SystemFault::Service(RsFault::NoRoom)),
        }
    }
}
