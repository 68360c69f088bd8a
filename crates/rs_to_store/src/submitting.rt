//! A driver table follows a map, and then takes a request.

ghost use Rattle.ds_held.specs.Held.{held_items};
ghost use Rattle.driver_tables.specs.Run.{one_move};
ghost use Rattle.rs_to_store.specs.Submitting.{FollowedAndTaken};

use crate::following::follow;
use driver_tables::{Drivers, Move, Moves, TableFault};
use ds_submap::SubMap;

/// Follows a map as `follow` does, and then submits a request to a unit, unless memory ran out for the follow. Returns the request's
/// move. The rounds of the follow are kept, even if the request is refused.
pub fn follow_and_submit<T: Drivers>(
    table: &mut T,
    map: &SubMap,
    id: u64,
    unit: u8,
    rounds: &mut Vec<Moves>,
) -> Result<Move, TableFault>
    ensures { FollowedAndTaken (held_items map.now.held) id unit (T.kept table.old) (T.kept table.new)
        rounds.old.items rounds.new.items (one_move result) }
{
    match follow(table, map, rounds) {
        None => table.submit(id, unit),
        Some(fault) => Err(fault),
    }
}
