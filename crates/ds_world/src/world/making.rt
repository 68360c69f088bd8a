//! Making and clearing a world's maps.

ghost use Rattle.ds_replica.specs.declared.event.Event.TheVariants.{NewMap, ClearMap};
ghost use Rattle.ds_world.specs.Run.{EventLeads};
ghost use Rattle.ds_world.specs.Told.{IsTold};

use crate::tally::fault_of;
use crate::world::World;
use ds_pattern::Query;
use ds_replica::{EventFault, Outcome};
use ds_submap::SubMap;

/// The most maps.
const MOST_MAPS: usize = 64;

impl World {
    // Makes the map of a query.
    pub(super) fn make_map(&mut self, query: &Query) -> Outcome
        ensures leads { EventLeads (NewMap query.now) result self.old self.new }
        ensures told { IsTold (NewMap query.now) result self.old self.new }
    {
        let number = self.maps.len();
        if number >= MOST_MAPS {
            return Outcome::Refused(EventFault::MapsFull);
        }
        let map = match SubMap::new(self.alloc, query) {
            Ok(map) => map,
            Err(fault) => return Outcome::Refused(fault_of(fault)),
        };
        match self.maps.push(map) {
            Ok(()) => Outcome::MapMade { map: number },
            Err(_) => Outcome::Refused(EventFault::NoRoom),
        }
    }

    // Empties a map.
    pub(super) fn clear_map(&mut self, map: usize) -> Outcome
        ensures leads { EventLeads (ClearMap map) result self.old self.new }
        ensures told { IsTold (ClearMap map) result self.old self.new }
    {
        if map >= self.maps.len() {
            return Outcome::Refused(EventFault::NoMap);
        }
        self.maps[map].clear();
        Outcome::Cleared
    }
}
