//! A driver table follows a map.

ghost use Rattle.ds_held.specs.Held.{held_items};
ghost use Rattle.rs_to_store.specs.Following.{HasFollowed};

use crate::news::told;
use driver_tables::{Drivers, Moves, TableFault};
use ds_submap::SubMap;

/// Follows a map: the table takes the state of each of its labels from the map, in the order in which units were assigned.
/// Each state that it takes adds one round of moves to `rounds`. Returns the fault that ended the follow early, if any.
///
/// The follow skips a label of which the map holds no change, a tombstone whose epoch is below the newest generation that
/// the table knows of the label, and a state that is an OldEndpoint. Any other tombstone means that the label has no driver
/// now. Only NoRoom ends a follow, at a label that has a round. The rounds before it are kept, and the table has taken them.
pub fn follow<T: Drivers>(
    table: &mut T,
    map: &SubMap,
    rounds: &mut Vec<Moves>,
) -> Option<TableFault>
    ensures { HasFollowed (held_items map.now.held) (T.kept table.old) (T.kept table.new) rounds.old.items rounds.new.items result }
{
    for index in 0..table.unit_count() {
        let Some(label) = table.label_at(index) else {
            return None;
        };
        let Some(state) = told(table, map, &label) else {
            continue;
        };
        if rounds.len() == rounds.capacity() {
            if table.is_old(&label, &state) {
                continue;
            }
            if rounds.reserve(1).is_err() {
                return Some(TableFault::NoRoom);
            }
        }
        match table.changed(&label, state) {
            Ok(moves) => rounds.push_reserved(moves),
            Err(TableFault::OldEndpoint) => continue,
            Err(fault) => return Some(fault),
        }
    }
    None
}
