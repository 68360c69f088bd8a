//! Floors in the order of their owners' names.

ghost use Rattle.std.specs.Prelude.{◌≡◌, ◌≤◌, ◌<◌, Ok, length, vec_len, slice_get, slice_index_or, slice_set};
ghost use Rattle.std.specs.FinMap.{get};
ghost use Rattle.std.specs.List.{insert};
ghost use Rattle.ds_names.specs.Key.{name_cmp};
ghost use Rattle.ds_held.specs.Held.{is_below};
ghost use Rattle.ds_held.specs.Kept.{AreFloorsAfter, AreOwnersRising, FloorAnswer, IsFloorPlace, floors_map, list_after};
ghost use Rattle.ds_held.specs.Merge.{AnswersNew};
ghost use Rattle.ds_held.specs.Raise.{AnswersHigher};

use ds_entry::{Change, Floor};
use ds_join::{JoinFault, Merge};
use ds_names::limits::MOST_FLOORS;
use ds_names::{Generation, Name};
use std::cmp::Ordering;

// Finds an owner's floor: `Ok` with its index, or `Err` with the index that it would get.
pub(crate) fn place_of(floors: &[Floor], owner: &Name) -> Result<usize, usize>
    requires { AreOwnersRising floors.now }
    ensures { IsFloorPlace floors.now owner.now result }
{
    floors.binary_search_by(|floor| floor.owner.cmp(owner))
}

// Returns the floor at an index.
pub(crate) fn nth_floor(floors: &[Floor], index: usize) -> Option<Floor>
    ensures { result ≡ slice_get floors.now index }
{
    floors.get(index).copied()
}

// Returns the generation of an owner's floor.
pub(crate) fn floor_at(floors: &[Floor], owner: &Name) -> Option<Generation>
    requires { AreOwnersRising floors.now }
    ensures { result ≡ get (floors_map floors.now) owner.now }
{
    match place_of(floors, owner) {
        Ok(i) => Some(floors[i].generation),
        Err(_) => None,
    }
}

// Whether the floor of its owner voids the change.
pub(crate) fn is_void(floors: &[Floor], change: &Change) -> bool
    requires { AreOwnersRising floors.now }
    ensures { result ≡ is_below (get (floors_map floors.now) change.now.owner) change.now }
{
    let owner = *change.owner();
    match floor_at(floors, &owner) {
        Some(generation) => Floor { owner, generation }.voids(change),
        None => false,
    }
}

// Raises the floor at an index. It allocates nothing.
fn replace(floors: &mut Vec<Floor>, i: usize, floor: Floor) -> Merge
    requires { i < vec_len floors.old }
    ensures answer { AnswersHigher (slice_index_or floors.old.items i floor).generation floor.generation (Ok result) }
    ensures floors { floors.new.items ≡ list_after floors.old.items (slice_set floors.old.items i floor) (Ok result) }
{
    match floors[i].generation.cmp(&floor.generation) {
        Ordering::Less => {
            floors[i] = floor;
            Merge::Taken
        }
        Ordering::Equal => Merge::Known,
        Ordering::Greater => Merge::Stale,
    }
}

// Inserts the floor of an owner without one, at its index.
fn add(floors: &mut Vec<Floor>, i: usize, floor: Floor) -> Result<Merge, JoinFault>
    requires within { i ≤ vec_len floors.old }
    requires few { vec_len floors.old ≤ 64 }
    ensures answer { AnswersNew (length floors.old.items) 64 result }
    ensures floors { floors.new.items ≡ list_after floors.old.items (insert floors.old.items i floor) result }
{
    if floors.len() >= MOST_FLOORS {
        return Err(JoinFault::Full);
    }
    match floors.insert(i, floor) {
        Ok(()) => Ok(Merge::Taken),
        Err(_) => Err(JoinFault::NoRoom),
    }
}

// Raises the floor of an owner.
pub(crate) fn raise(floors: &mut Vec<Floor>, floor: Floor) -> Result<Merge, JoinFault>
    requires rising { AreOwnersRising floors.old.items }
    requires few { length floors.old.items ≤ 64 }
    ensures answer { FloorAnswer floors.old.items floor result }
    ensures floors { AreFloorsAfter floors.old.items floor result floors.new.items }
{
    match place_of(floors, &floor.owner) {
        Ok(i) => Ok(replace(floors, i, floor)),
        Err(i) => add(floors, i, floor),
    }
}
