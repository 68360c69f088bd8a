//! Judging a floor.

ghost use Rattle.std.specs.Prelude.{◌≡◌, None, IfNone};
ghost use Rattle.ds_machine.specs.Order.{first_cause};
ghost use Rattle.ds_machine.specs.Standing.{against_floor, IsFloorFree};
ghost use Rattle.ds_machine.specs.Asking.{against_sweep};
ghost use Rattle.ds_store.specs.Standing.{machine_floor_standing};

use crate::standing::FloorStanding;
use ds_entry::Floor;
use ds_machine::{Cause, Refusal};
use ds_names::Endpoint;
use ds_names::limits::{LAST_PLACE, MOST_FLOORS};

/// Returns the first cause against a floor from another holder, or `None` if the floor would take effect.
///
/// Stale if the owner's held floor is higher, Known if it is the same, Full if the owner has none and 64 others have one,
/// and Worn if no position below 2^62 is left.
pub fn cause_of_floor(standing: &FloorStanding, floor: &Floor) -> Option<Cause>
    ensures first { result ≡ first_cause None (against_floor (machine_floor_standing floor.now.owner standing.now) floor.now) }
    ensures free { IfNone result (IsFloorFree (machine_floor_standing floor.now.owner standing.now) floor.now) }
{
    let generation = floor.generation.number();
    match standing.held {
        Some(held) if generation < held.number() => Some(Cause::Refused(Refusal::Stale)),
        Some(held) if generation == held.number() => Some(Cause::Known),
        None if standing.count >= MOST_FLOORS => Some(Cause::Refused(Refusal::Full)),
        _ if standing.position >= LAST_PLACE => Some(Cause::Refused(Refusal::Worn)),
        _ => None,
    }
}

/// Returns the first cause against a Sweep: NotAllowed unless the caller is RS, then the causes against its floor.
pub fn cause_of_sweep(standing: &FloorStanding, caller: Endpoint, floor: &Floor) -> Option<Cause>
    ensures first { result ≡ first_cause None (against_sweep (machine_floor_standing floor.now.owner standing.now) caller floor.now) }
    ensures free { IfNone result (IsFloorFree (machine_floor_standing floor.now.owner standing.now) floor.now) }
{
    if !caller.is_rs() {
        return Some(Cause::Refused(Refusal::NotAllowed));
    }
    cause_of_floor(standing, floor)
}
