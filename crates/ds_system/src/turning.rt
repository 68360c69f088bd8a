//! What both servers' tables do beside a world, each with a map of its own.

ghost use Rattle.std.specs.Prelude.{◌≡◌, []};
ghost use Rattle.ds_replica.specs.declared.event.Holder.TheVariants.{Map};
ghost use Rattle.ds_world.specs.World.{held_in};
ghost use Rattle.ds_system.specs.Turns.{moved_so, FollowsMap, HasSubmitted, HasReplied, ServersFollow};

use crate::outcome::SystemOutcome;
use crate::rounds::Rounds;
use driver_tables::{Drivers, FileTable, Move, Moves, NetTable, TableFault};
use ds_names::Endpoint;
use ds_world::World;
use rs_to_store::follow;

/// The number of the map that the file server follows.
pub(crate) const FILE_MAP: usize = 0;

/// The number of the map that the network server follows.
pub(crate) const NET_MAP: usize = 1;

// Returns the outcome of a server's event.
pub(crate) fn moved(rounds: Rounds, answer: Result<Move, TableFault>) -> SystemOutcome
    ensures { result ≡ moved_so rounds answer }
{
    match answer {
        Ok(own) => SystemOutcome::Moved {
            rounds,
            own: Some(own),
            fault: None,
        },
        Err(fault) => SystemOutcome::Moved {
            rounds,
            own: None,
            fault: Some(fault),
        },
    }
}

// Follows the map of a number. A map that doesn't exist tells nothing.
fn follows<T: Drivers>(
    table: &mut T,
    world: &World,
    map: usize,
    rounds: &mut Vec<Moves>,
) -> Option<TableFault>
    ensures { FollowsMap world.now map (T.kept table.old) (T.kept table.new) rounds.old.items rounds.new.items result }
{
    match world.map(map) {
        Some(map) => follow(table, map, rounds),
        None => None,
    }
}

// Follows both maps, the file server's first; if something ends that, the network server doesn't follow.
pub(crate) fn servers_follow(
    file: &mut FileTable,
    net: &mut NetTable,
    world: &World,
    rounds: &mut Vec<Moves>,
) -> Option<TableFault>
    requires { rounds.old.items ≡ [] }
    ensures { ServersFollow world.now file.old file.new net.old net.new rounds.new.items result }
{
    match follows(file, world, FILE_MAP, rounds) {
        None => follows(net, world, NET_MAP, rounds),
        Some(fault) => Some(fault),
    }
}

// Follows the map of a number, and then takes a request.
pub(crate) fn submits<T: Drivers>(
    table: &mut T,
    world: &World,
    map: usize,
    id: u64,
    unit: u8,
    rounds: &mut Vec<Moves>,
) -> Result<Move, TableFault>
    requires { rounds.old.items ≡ [] }
    ensures { HasSubmitted (held_in world.now (Map map)) id unit (T.kept table.old) (T.kept table.new) rounds.new.items result }
{
    match follows(table, world, map, rounds) {
        None => table.submit(id, unit),
        Some(fault) => Err(fault),
    }
}

pub(crate) fn replies<T: Drivers>(
    table: &mut T,
    endpoint: Endpoint,
    id: u64,
) -> Result<Move, TableFault>
    ensures { HasReplied endpoint id (T.kept table.old) (T.kept table.new) result }
{
    table.reply(endpoint, id)
}
