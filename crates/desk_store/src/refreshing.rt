//! Brings a follower up to date.

ghost use Rattle.std.specs.Prelude.{◌≡◌, ◌≤◌, Err, IfOk, IfErr, OnOk, OnErr, None};
ghost use Rattle.desk_store.specs.RefreshFaults.{IsRefreshFault};
ghost use Rattle.desk_store.specs.Follower.{IsSameFollower};
ghost use Rattle.desk_store.specs.KeepsUp.{KeepsUpWith};
ghost use Rattle.desk_store.specs.Refresh.{KeepsMap, MapIsLed, Refreshes, SeatCallsOnly};

use crate::calling::call_once;
use crate::follower::Follower;
use crate::refresh_fault::RefreshFault;
use crate::store_seat::StoreSeat;
use std::alloc::Global;

/// The outcome of a refresh.
#[derive(Clone, Copy, PartialEq, Eq)]
pub enum Fresh {
    /// The map is what the store held under the query after all calls below this place.
    UpTo(u64),
    /// The limit of calls was reached before that.
    More,
}

/// Brings the follower's map up to date by at most `limit` calls, 2 to 65536, while other threads call the desk. May wait.
///
/// A follower that is new or lost subscribes, and empties its map. Then it checks until a Check returns fewer items than it may. If a Check
/// returns another stamp, the follower is lost, and subscribes again.
///
/// Returns `UpTo(place)` if the map is what the store held under the query after all calls below `place`, which is above all that the pass
/// had seen. Returns `More` after exactly `limit` calls without such an end. Refuses any other limit as BadLimit. After any other fault the
/// follower is lost; if no call was accepted, its map is unchanged. Only an accepted Subscribe empties the map. A Check's items join it.
pub fn refresh<S: StoreSeat>(
    seat: &mut S,
    alloc: Global,
    follower: &mut Follower,
    limit: u32,
) -> Result<Fresh, RefreshFault>
    requires keeps { KeepsUpWith (S.seat seat.old).pass follower.old }
    ensures only { SeatCallsOnly (S.seat seat.old) (S.seat seat.new) follower.old limit }
    ensures fresh { IfOk result (Refreshes (S.seat seat.old).pass (S.seat seat.new).pass follower.old follower.new limit) }
    ensures keeps { KeepsUpWith (S.seat seat.new).pass follower.new }
    ensures same { IsSameFollower follower.old follower.new }
    ensures fault { IfErr result (IsRefreshFault limit (S.seat seat.old).pass (S.seat seat.new).pass follower.old) }
    ensures kept { OnErr result (KeepsMap (S.seat seat.old).pass (S.seat seat.new).pass follower.old follower.new) }
    ensures map { MapIsLed (S.seat seat.old).pass (S.seat seat.new).pass follower.old follower.new }
    ensures untouched { result ≡ Err RefreshFault.BadLimit → (seat.new ≡ seat.old) × (follower.new.map ≡ follower.old.map) }
    ensures lost { OnErr result (follower.new.stamp ≡ None) }
    ensures limit { OnOk result ((2 ≤ limit) × (limit ≤ 65536)) }
{
    if limit < 2 || limit > 65536 {
        follower.lose();
        return Err(RefreshFault::BadLimit);
    }
    for _made in 0..limit {
        match call_once(seat, alloc, follower) {
            Ok(None) => {}
            Ok(Some(place)) => return Ok(Fresh::UpTo(place)),
            Err(fault) => {
                follower.lose();
                return Err(RefreshFault::Call(fault));
            }
        }
    }
    Ok(Fresh::More)
}
