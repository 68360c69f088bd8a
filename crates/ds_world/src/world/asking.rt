//! Commands to a world's stores.

ghost use Rattle.std.specs.Prelude.{◌≡◌, ◌∷◌, [], true, false};
ghost use Rattle.ds_machine.specs.Says.{IsReplyTo};
ghost use Rattle.ds_machine.specs.State.{State};
ghost use Rattle.ds_machine.specs.Machine.{Step};
ghost use Rattle.ds_machine.specs.declared.command.Command.TheVariants.{Merge};
ghost use Rattle.ds_store.specs.Last.{IsLast};
ghost use Rattle.ds_content.specs.Stands.{ContentStands};
ghost use Rattle.ds_store.specs.Steps.{ContentSteps};
ghost use Rattle.ds_replica.specs.declared.event.Event.TheVariants.{Ask};
ghost use Rattle.ds_replica.specs.declared.outcome.Outcome.TheVariants.{Replied};
ghost use Rattle.ds_replica.specs.Happens.{gives_items};
ghost use Rattle.ds_world.specs.Run.{EventLeads};
ghost use Rattle.ds_world.specs.Steps.{StoreSteps, LastOf};
ghost use Rattle.ds_world.specs.Told.{IsAskTold, IsTold};

use crate::parts::{command_proof, item_proof};
use crate::replies::{gives_items, has_items, keep};
use crate::world::World;
use ds_entry::Item;
use ds_machine::{Command, Reply};
use ds_replica::{EventFault, Outcome, Side};
use ds_store::Store;
use std::slice;

/// The most messages.
const MOST_MESSAGES: usize = 65536;

// Sends a command to the store of a side.
fn apply(a: &mut Store, b: &mut Store, side: Side, command: Command) -> Reply
    ensures step { StoreSteps a.old b.old a.new b.new side command result }
    ensures last { LastOf a.old b.old side command result }
    ensures fits { IsReplyTo command result }
{
    match side {
        Side::A => a.apply(command),
        Side::B => b.apply(command),
    }
}

// Merges an item into a store.
fn merge_item(store: &mut Store, item: &Item) -> Reply
    ensures step { ContentSteps store.old (λ s t. Step s (Merge (item.now ∷ [])) result t) store.new }
    ensures last { (s : State) → ContentStands store.old s → IsLast s (Merge (item.now ∷ [])) result }
    ensures fits { IsReplyTo (Merge (item.now ∷ [])) result }
{
    let items = slice::from_ref(item);
    store.fast_merge(items)
}

// Merges an item into the store of a side.
fn merge_one(a: &mut Store, b: &mut Store, side: Side, item: &Item) -> Reply
    ensures step { StoreSteps a.old b.old a.new b.new side (Merge (item.now ∷ [])) result }
    ensures last { LastOf a.old b.old side (Merge (item.now ∷ [])) result }
    ensures fits { IsReplyTo (Merge (item.now ∷ [])) result }
{
    match side {
        Side::A => merge_item(a, item),
        Side::B => merge_item(b, item),
    }
}

impl World {
    // Sends a command to a store. A reply with items is kept as the next message; memory for that is taken first.
    pub(super) fn ask(&mut self, side: Side, command: Command) -> Outcome
        ensures leads { EventLeads (Ask side command) result self.old self.new }
        ensures told { IsTold (Ask side command) result self.old self.new }
    {
        if gives_items(&command) {
            command_proof(&command);
            return self.ask_for_items(side, command);
        }
        Outcome::Replied(self.reply(side, command))
    }

    /// Sends a command whose reply has no items to the store of a side, and returns the reply. This is the event of an
    /// Ask with that outcome, which no world refuses. Takes memory only if the store does.
    pub fn reply(&mut self, side: Side, command: Command) -> Reply
        requires { gives_items command ≡ false }
        ensures leads { EventLeads (Ask side command) (Replied result) self.old self.new }
        ensures told { IsTold (Ask side command) (Replied result) self.old self.new }
    {
        command_proof(&command);
        apply(&mut self.a, &mut self.b, side, command)
    }

    /// Merges one borrowed item into the store of a side, and returns the reply: like `reply` with a Merge of that
    /// item, but without a list.
    pub fn fast_offer(&mut self, side: Side, item: &Item) -> Reply
        ensures leads { EventLeads (Ask side (Merge (item.now ∷ []))) (Replied result) self.old self.new }
        ensures told { IsTold (Ask side (Merge (item.now ∷ []))) (Replied result) self.old self.new }
    {
        item_proof(item);
        merge_one(&mut self.a, &mut self.b, side, item)
    }

    // Sends a command whose reply has items to a store.
    fn ask_for_items(&mut self, side: Side, command: Command) -> Outcome
        requires { gives_items command ≡ true }
        ensures leads { EventLeads (Ask side command) result self.old self.new }
        ensures told { IsAskTold side command result self.old self.new }
    {
        let message = self.messages.len();
        if message >= MOST_MESSAGES {
            return Outcome::Refused(EventFault::MessagesFull);
        }
        let Ok(()) = self.messages.reserve(1) else {
            return Outcome::Refused(EventFault::NoRoom);
        };
        let reply = apply(&mut self.a, &mut self.b, side, command);
        if has_items(&reply) {
            keep(self.alloc, &mut self.messages, reply);
            return Outcome::Made { message };
        }
        Outcome::Replied(reply)
    }
}
