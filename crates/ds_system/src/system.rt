//! The system's type, and its runs of events.

ghost use Rattle.std.specs.Prelude.{◌≡◌, ◌≢◌, ◌≤◌, [], length, vec_capacity, IfOk, IfErr, OnOk, OnErr};
ghost use Rattle.ds_world.specs.Run.{most_events};
ghost use Rattle.ds_system.specs.Stands.{SystemEventLeads};
ghost use Rattle.ds_system.specs.Since.{SystemRunLeads, SystemLawsHold, IsSystemRunFault};

use crate::event::SystemEvent;
use crate::events::SystemEvents;
use crate::outcome::SystemOutcome;
use crate::outcomes::SystemOutcomes;
use driver_tables::{FileTable, NetTable};
use ds_entry::{Body, Change};
use ds_machine::answers_say;
use ds_world::{World, WorldFault};
use rs_core::{Numberer, Rs};
use std::alloc::Global;
use std::marker::Model;

mod asking;
mod moving;
mod serving;
mod starting;
mod writing;

/// The most events of one run.
const MOST_EVENTS: usize = 65536;

/// RS, the numbers that its services draw, a world of two stores (its map 0 is the file server's, its map 1 the network
/// server's), both driver tables, and the changes that RS and the services made.
#[derive(Drop)]
pub struct System {
    alloc: Global,
    rs: Rs,
    // For each service of the settings, the numbers of the instance that drew one last.
    numberers: Vec<Numberer>,
    world: World,
    file: FileTable,
    net: NetTable,
    made: Vec<Change>,
}

impl Model for System {
    ghost use Rattle.std.specs.Prelude.{◌≡◌, List, length};
    ghost use Rattle.std.specs.Coded.{code_by, coded×, coded_list};
    ghost use Rattle.ds_entry.specs.Change.{ChangeRecord};
    ghost use Rattle.ds_entry.specs.contracts.change.Change.{the_row as change_row};
    ghost use Rattle.rs_core.specs.State.{RsRecord};
    ghost use Rattle.rs_core.specs.contracts.rs.Rs.{the_row as rs_row};
    ghost use Rattle.rs_core.specs.Numbering.{NumbererRecord};
    ghost use Rattle.rs_core.specs.contracts.numberer.Numberer.{the_row as numberer_row};
    ghost use Rattle.driver_tables.specs.Stands.{TableRecord};
    ghost use Rattle.driver_tables.specs.contracts.file_table.FileTable.{the_row as file_row};
    ghost use Rattle.driver_tables.specs.contracts.net_table.NetTable.{the_row as net_row};
    ghost use Rattle.ds_world.specs.World.{WorldRecord};
    ghost use Rattle.ds_world.specs.contracts.world.World.{the_row as world_row};
    ghost use Rattle.ds_system.specs.Stands.{SystemRecord, system_of};

    ghost Value = { SystemRecord };

    ghost coded = { code_by
        (RsRecord × (List NumbererRecord × (WorldRecord × (TableRecord × (TableRecord × List ChangeRecord)))))
        (coded× rs_row.coded
        (coded× (coded_list numberer_row.coded)
        (coded× world_row.coded (coded× file_row.coded (coded× net_row.coded (coded_list change_row.coded))))))
        (λ s. (s.rs, (s.numberers, (s.world, (s.file, (s.net, s.made))))))
        (λ p. system_of p.0 p.1.0 p.1.1.0 p.1.1.1.0 p.1.1.1.1.0 p.1.1.1.1.1)
        (λ s i. s) };

    ghost view = { λ s. system_of s.rs s.numberers.items s.world s.file s.net s.made.items };

    ghost invariant = { λ s. length s.numberers.items ≡ length s.rs.settings.services };
}

impl System {
    /// Runs the events in order, and returns their outcomes. A refused event changes nothing, and the next one follows.
    /// RS's decisions and drawn numbers remain, even if a store refuses what came of them.
    ///
    /// The laws of systems hold of everything since the system was new, over all runs, with no premise but that the
    /// settings were checked. What Asks brought into the stores is single-numbered, so replicas and maps that know the
    /// same hold the same, and no delivery is stopped by a clash or by another owner. No Send and no Start of either
    /// server goes to an older generation.
    ///
    /// The outcomes of the world's own events, the store's replies and the messages are as `World::run` promises, and all
    /// laws of worlds hold since the system was new: so a snapshot, a journal, pages or checks of any run are whole.
    ///
    /// Refuses more than 65536 events as TooMany, then NoRoom if the outcomes can't be allocated; nothing happens then.
    /// A run of no events takes no memory.
    pub fn run(&mut self, events: SystemEvents) -> Result<SystemOutcomes, WorldFault>
        ensures one_each { IfOk result (λ outcomes. length outcomes ≡ length events) }
        ensures few { OnOk result (length events ≤ most_events) }
        ensures done { IfOk result (λ outcomes. SystemRunLeads events outcomes self.old self.new) }
        ensures laws { IfOk result (λ outcomes. SystemLawsHold events outcomes self.old self.new) }
        ensures refused { IfErr result (λ fault. IsSystemRunFault fault events) }
        ensures room { IfErr result (λ fault. fault ≡ WorldFault.NoRoom → events ≢ []) }
        ensures unchanged { OnErr result (self.new ≡ self.old) }
    {
        answers_say();
        if events.len() > MOST_EVENTS {
            return Err(WorldFault::TooMany);
        }
        let Ok(outcomes) = Vec::with_capacity(self.alloc, events.len()) else {
            return Err(WorldFault::NoRoom);
        };
        let outcomes = self.happen_all(events, outcomes);
        let _map = self.world.map(0);
        Ok(outcomes)
    }

    // Runs the events. The list has room for their outcomes.
    fn happen_all(
        &mut self,
        events: SystemEvents,
        mut outcomes: Vec<SystemOutcome>,
    ) -> SystemOutcomes
        requires none { outcomes.items ≡ [] }
        requires room { length events ≤ vec_capacity outcomes }
        ensures one_each { length result ≡ length events }
        ensures done { SystemRunLeads events result self.old self.new }
    {
        for event in events.into_list() {
            outcomes.push_reserved(self.happen(event));
        }
        SystemOutcomes::of(outcomes)
    }

    // Runs one event, and returns its outcome. A refused event changes nothing.
    fn happen(&mut self, event: SystemEvent) -> SystemOutcome
        ensures { SystemEventLeads event result self.old self.new }
    {
        match event {
            SystemEvent::Service { event, tick, side } => self.serve(event, tick, side),
            SystemEvent::Put {
                label,
                key,
                value,
                side,
            } => self.write(label, &key, Body::Put(value), side),
            SystemEvent::Remove { label, key, side } => self.write(label, &key, Body::Gone, side),
            SystemEvent::Again { change, side } => self.again(change, side),
            SystemEvent::World(event) => self.pass(event),
            SystemEvent::Follow => self.follow(),
            SystemEvent::Submit { table, id, unit } => self.submit(table, id, unit),
            SystemEvent::Answered {
                table,
                endpoint,
                id,
            } => self.answered(table, endpoint, id),
        }
    }

    /// Returns the world, which can be read in full.
    pub fn world(&self) -> &World
        ensures { result.now ≡ self.now.world }
    {
        &self.world
    }
}
