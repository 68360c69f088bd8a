//! Worlds.

ghost use Rattle.std.specs.Prelude.{◌≡◌, ◌≢◌, ◌≤◌, [], ◌∷◌, length, slice_get, vec_capacity, All, IfOk, IfErr, IfSome, OnOk, OnErr};
ghost use Rattle.std.specs.Option.{option_copied};
ghost use Rattle.ds_held.specs.Limits.{larger};
ghost use Rattle.ds_submap.specs.Map.{IsMap};
ghost use Rattle.ds_replica.specs.World.{World as Described, new_world};
ghost use Rattle.ds_replica.specs.Known.{Account, new_account};
ghost use Rattle.ds_world.specs.World.{store_in, HasItems, WorldStands};
ghost use Rattle.ds_world.specs.Seeds.{AreSeeds, IsSeedFault};
ghost use Rattle.ds_world.specs.Run.{most_events, paired, EventLeads, RunLeads, IsRunFault};
ghost use Rattle.ds_world.specs.Told.{IsTold, AreTold, MessagesAreKept, MessagesStay};
ghost use Rattle.ds_world.specs.Account.{IsFor, TurnsAreRun};
ghost use Rattle.ds_world.specs.Laws.{LawsHold};

use crate::events::Events;
use crate::fault::{SeedFault, WorldFault};
use crate::outcomes::Outcomes;
use ds_machine::{answers_say, refusals_say};
use ds_replica::{Event, Message, Outcome, Seed, Side};
use ds_store::Store;
use ds_submap::SubMap;
use std::alloc::Global;
use std::marker::Model;

mod asking;
mod delivering;
mod making;
mod opening;

/// The most events of one run.
const MOST_EVENTS: usize = 65536;

/// Two stores, up to 64 subscribers' maps, and up to 65536 messages. A message is a store's reply to a Check, Since,
/// Snapshot or Page, with its items, cursors and stamps. Maps and messages are numbered from 0 in the order of their
/// making.
#[derive(Drop)]
pub struct World {
    alloc: Global,
    a: Store,
    b: Store,
    maps: Vec<SubMap>,
    messages: Vec<Message>,
}

impl Model for World {
    ghost use Rattle.std.specs.Prelude.{List, All};
    ghost use Rattle.std.specs.Coded.{code_by, coded×, coded_list};
    ghost use Rattle.ds_content.specs.Content.{ContentRecord};
    ghost use Rattle.ds_machine.specs.declared.reply.Reply.{Reply};
    ghost use Rattle.ds_machine.specs.contracts.reply.Reply.{the_row as reply_row};
    ghost use Rattle.ds_submap.specs.Map.{SubMapRecord, IsMap};
    ghost use Rattle.ds_submap.specs.contracts.map.SubMap.{the_row as map_row};
    ghost use Rattle.ds_store.specs.contracts.store.Store.{the_row as store_row};
    ghost use Rattle.ds_world.specs.World.{WorldRecord, world_of, HasItems};

    ghost Value = { WorldRecord };

    ghost coded = { code_by
        (ContentRecord × (ContentRecord × (List SubMapRecord × List Reply)))
        (coded× store_row.coded (coded× store_row.coded (coded× (coded_list map_row.coded) (coded_list reply_row.coded))))
        (λ w. (w.a, (w.b, (w.maps, w.messages))))
        (λ p. world_of p.0 p.1.0 p.1.1.0 p.1.1.1)
        (λ w i. w) };

    ghost view = { λ w. world_of w.a w.b w.maps.items w.messages.items };

    ghost invariant = { λ w. All IsMap w.maps.items × All HasItems w.messages.items };
}

impl World {
    /// Makes a world of two empty stores, without maps and messages. Each store is opened with its seed, for 128
    /// subscriptions and 4096 keys. Refuses as BadRing unless both rings are 1 to 4096, then as BadFirst if a first
    /// position is above 2^62, then as OldIncarnation if both incarnations are equal, and last as NoRoom.
    pub fn new(alloc: Global, a: Seed, b: Seed) -> Result<World, SeedFault>
        ensures made { IfOk result (λ world. WorldStands world (new_world a b larger)) }
        ensures account { IfOk result (λ world. IsFor (new_account a b larger) world) }
        ensures fits { OnOk result (AreSeeds a b) }
        ensures refused { IfErr result (λ fault. IsSeedFault fault a b) }
    {
        if let Some(fault) = opening::seed_fault(&a, &b) {
            return Err(fault);
        }
        let first = opening::opened(alloc, a)?;
        let second = opening::opened(alloc, b)?;
        Ok(World {
            alloc,
            a: first,
            b: second,
            maps: Vec::new(alloc),
            messages: Vec::new(alloc),
        })
    }

    /// Lets the events happen in order, and returns their outcomes. A refused event changes nothing, and the next one
    /// follows.
    ///
    /// Refuses as TooMany above 65536 events, then as NoRoom if the outcomes can't be allocated; then nothing happens.
    /// An empty list takes no memory.
    pub fn run(&mut self, events: Events) -> Result<Outcomes, WorldFault>
        ensures one_each { IfOk result (λ outcomes. length outcomes ≡ length events) }
        ensures few { OnOk result (length events ≤ most_events) }
        ensures done { IfOk result (λ outcomes. RunLeads events outcomes self.old self.new) }
        ensures told { IfOk result (λ outcomes. AreTold self.old (paired events outcomes) self.new) }
        ensures messages { IfOk result (λ outcomes. MessagesAreKept self.old (paired events outcomes) self.new) }
        ensures laws { IfOk result (λ outcomes. LawsHold self.old (paired events outcomes) self.new) }
        ensures turns { IfOk result (λ outcomes. TurnsAreRun self.old (paired events outcomes) self.new) }
        ensures refused { IfErr result (λ fault. IsRunFault fault events) }
        ensures room { IfErr result (λ fault. fault ≡ WorldFault.NoRoom → events ≢ []) }
        ensures unchanged { OnErr result (self.new ≡ self.old) }
    {
        answers_say();
        if events.len() > MOST_EVENTS {
            return Err(WorldFault::TooMany);
        }
        let Ok(outcomes) = Vec::with_capacity(self.alloc, events.len()) else {
            return Err(WorldFault::NoRoom);
        };
        let outcomes = self.happen_all(events, outcomes);
        self.maps_proof();
        Ok(outcomes)
    }

    // Lets the events happen. Their outcomes fit into `outcomes`.
    fn happen_all(&mut self, events: Events, mut outcomes: Vec<Outcome>) -> Outcomes
        requires none { outcomes.items ≡ [] }
        requires room { length events ≤ vec_capacity outcomes }
        ensures one_each { length result ≡ length events }
        ensures done { RunLeads events result self.old self.new }
        ensures told { AreTold self.old (paired events result) self.new }
    {
        for event in events.into_list() {
            outcomes.push_reserved(self.happen(event));
        }
        Outcomes::of(outcomes)
    }

    /// Lets an event happen, and returns its outcome. A refused event changes nothing.
    ///
    /// An account that fitted the world fits it after it is extended by the event and its outcome, as for `run`.
    pub fn happen(&mut self, event: Event) -> Outcome
        ensures leads { EventLeads event result self.old self.new }
        ensures told { IsTold event result self.old self.new }
        ensures messages { MessagesStay self.old self.new }
        ensures laws { LawsHold self.old ((event, result) ∷ []) self.new }
        ensures turns { TurnsAreRun self.old ((event, result) ∷ []) self.new }
    {
        answers_say();
        refusals_say();
        let outcome = self.carry_out(event);
        self.maps_proof();
        outcome
    }

    // For the prover alone: every map is a sound one.
    fn maps_proof(&self)
        ensures { All IsMap self.now.maps }
    {
        let _maps = &self.maps;
    }

    // Lets an event happen, by its kind.
    fn carry_out(&mut self, event: Event) -> Outcome
        ensures leads { EventLeads event result self.old self.new }
        ensures told { IsTold event result self.old self.new }
    {
        match event {
            Event::Ask { side, command } => self.ask(side, command),
            Event::NewMap { query } => self.make_map(&query),
            Event::Deliver {
                message,
                holder,
                count,
            } => self.deliver(message, holder, count),
            Event::ClearMap { map } => self.clear_map(map),
            Event::RestartStore { side, incarnation } => self.restart(side, incarnation),
        }
    }

    /// Returns the store of a side. At any time the world stands for some world of the definitions, and what `happen`
    /// and `run` say holds for each of them. Some account fits it, with which a caller that was handed the world can
    /// begin.
    pub fn store(&self, side: Side) -> &Store
        ensures is { result.now ≡ store_in self.now side }
        ensures stands { (w : Described) × WorldStands self.now w }
        ensures account { (known : Account) × IsFor known self.now }
    {
        let _stood = (self.a.cursor(), self.b.cursor());
        match side {
            Side::A => &self.a,
            Side::B => &self.b,
        }
    }

    /// Returns the map with this number, or `None` if there is no such map. Every map of the world is a sound one.
    pub fn map(&self, number: usize) -> Option<&SubMap>
        ensures is { option_copied result ≡ slice_get self.now.maps number }
        ensures map { IfSome result (λ map. IsMap map.now) }
        ensures maps { All IsMap self.now.maps }
    {
        self.maps.get(number)
    }

    /// Returns the message with this number, a store's reply with items (`Checked`, `Journaled`, `Snapped` or `Paged`),
    /// or `None` if there is no such message.
    pub fn message(&self, number: usize) -> Option<&Message>
        ensures is { option_copied result ≡ slice_get self.now.messages number }
        ensures items { IfSome result (λ message. HasItems message.now) }
    {
        self.messages.get(number)
    }
}
