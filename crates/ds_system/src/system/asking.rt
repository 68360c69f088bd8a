//! What reaches a store besides new changes: a change that is repeated, and the world's own events.

ghost use Rattle.std.specs.Prelude.{◌≡◌, slice_get, IfOk, OnErr};
ghost use Rattle.std.specs.Option.{option_copied};
ghost use Rattle.ds_entry.specs.Change.{BodyCopyTakesMemory, IsChange};
ghost use Rattle.ds_entry.specs.declared.item.Item.TheVariants.{Change as Changed};
ghost use Rattle.ds_system.specs.Steps.{is_barred, is_bringing};
ghost use Rattle.ds_system.specs.declared.event.SystemEvent.TheVariants as events;
ghost use Rattle.ds_system.specs.Stands.{SystemEventLeads};

use crate::outcome::{SystemFault, SystemOutcome};
use crate::system::System;
use ds_entry::{Change, Item};
use ds_machine::Command;
use ds_names::NoRoom;
use ds_replica::{Event, Side};
use std::alloc::Global;

// Returns a copy of a change, as an item. Takes memory only for a text or a blob that isn't empty.
fn item_of(alloc: Global, change: &Change) -> Result<Item, NoRoom>
    ensures item { IfOk result (λ item. item ≡ Changed change.now) }
    ensures change { IsChange change.now }
    ensures room { OnErr result (BodyCopyTakesMemory change.now.body) }
{
    match change.copy(alloc) {
        Ok(copied) => Ok(Item::Change(copied)),
        Err(NoRoom) => Err(NoRoom),
    }
}

// Returns whether the command brings something in.
fn is_bringing(command: &Command) -> bool
    ensures { result ≡ is_bringing command.now }
{
    match command {
        Command::Publish { .. }
        | Command::Delete { .. }
        | Command::Sweep { .. }
        | Command::Merge { .. } => true,
        _ => false,
    }
}

// Returns whether the event is an Ask that brings something in, which only RS and the services may do.
fn is_barred(event: &Event) -> bool
    ensures { result ≡ is_barred event.now }
{
    match event {
        Event::Ask { command, .. } => is_bringing(command),
        _ => false,
    }
}

impl System {
    // Returns the made change of this number.
    fn made_at(&self, number: usize) -> Option<&Change>
        ensures { option_copied result ≡ slice_get self.now.made number }
    {
        self.made.get(number)
    }

    // Repeats a change that was made, as a Merge of it. If memory runs out for a copy of its text or blob, nothing
    // happens.
    pub(super) fn again(&mut self, change: usize, side: Side) -> SystemOutcome
        ensures { SystemEventLeads (events.Again change side) result self.old self.new }
    {
        let Some(made) = self.made_at(change) else {
            return SystemOutcome::Refused(SystemFault::NoMessage);
        };
        let Ok(item) = item_of(self.alloc, made) else {
            return SystemOutcome::Refused(SystemFault::NoRoom);
        };
        let reply = self.world.fast_offer(side, &item);
        SystemOutcome::Replied(reply)
    }

    // Passes an event to the world.
    pub(super) fn pass(&mut self, event: Event) -> SystemOutcome
        ensures { SystemEventLeads (events.World event) result self.old self.new }
    {
        if is_barred(&event) {
            return SystemOutcome::Refused(SystemFault::NotAllowed);
        }
        SystemOutcome::Happened(self.world.happen(event))
    }
}
