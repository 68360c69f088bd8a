//! The servers' events: they follow their maps, and take requests and replies.

ghost use Rattle.std.specs.Prelude.{◌≡◌};
ghost use Rattle.ds_system.specs.declared.event.SystemEvent.TheVariants as events;
ghost use Rattle.ds_system.specs.Stands.{SystemEventLeads};

use crate::event::Table;
use crate::outcome::SystemOutcome;
use crate::rounds::Rounds;
use crate::system::System;
use crate::turning::{FILE_MAP, NET_MAP, moved, replies, servers_follow, submits};
use ds_names::Endpoint;

impl System {
    // Follows both maps, the file server's first.
    pub(super) fn follow(&mut self) -> SystemOutcome
        ensures { SystemEventLeads events.Follow result self.old self.new }
    {
        let mut rounds = Vec::new(self.alloc);
        let fault = servers_follow(&mut self.file, &mut self.net, &self.world, &mut rounds);
        SystemOutcome::Moved {
            rounds: Rounds::of(rounds),
            own: None,
            fault,
        }
    }

    // Follows a server's map, and takes a request.
    pub(super) fn submit(&mut self, table: Table, id: u64, unit: u8) -> SystemOutcome
        ensures { SystemEventLeads (events.Submit table id unit) result self.old self.new }
    {
        let mut rounds = Vec::new(self.alloc);
        match table {
            Table::File => {
                let answer = submits(&mut self.file, &self.world, FILE_MAP, id, unit, &mut rounds);
                moved(Rounds::of(rounds), answer)
            }
            Table::Net => {
                let answer = submits(&mut self.net, &self.world, NET_MAP, id, unit, &mut rounds);
                moved(Rounds::of(rounds), answer)
            }
        }
    }

    // Takes a driver's reply to a request.
    pub(super) fn answered(&mut self, table: Table, endpoint: Endpoint, id: u64) -> SystemOutcome
        ensures { SystemEventLeads (events.Answered table endpoint id) result self.old self.new }
    {
        match table {
            Table::File => {
                let answer = replies(&mut self.file, endpoint, id);
                moved(Rounds::new(self.alloc), answer)
            }
            Table::Net => {
                let answer = replies(&mut self.net, endpoint, id);
                moved(Rounds::new(self.alloc), answer)
            }
        }
    }
}
