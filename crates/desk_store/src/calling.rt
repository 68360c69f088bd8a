//! One call of a refresh.

ghost use Rattle.std.specs.Prelude.{◌≡◌, IfOk, IfErr, OnOk, OnErr};
ghost use Rattle.desk_store.specs.RefreshFaults.{FailsOnce};
ghost use Rattle.desk_store.specs.Follower.{IsSameFollower};
ghost use Rattle.desk_store.specs.KeepsUp.{KeepsUpWith};
ghost use Rattle.desk_store.specs.Refresh.{FollowerIsLed, KeepsMap, MapIsLed, SeatCallsOnly, TakesOneCall};

use crate::call_fault::CallFault;
use crate::follower::Follower;
use crate::questions::Shown;
use crate::store_seat::StoreSeat;
use ds_join::JoinFault;
use ds_names::limits::MOST_ITEMS;
use std::alloc::Global;

/// Makes one call of a refresh. Returns the place after the call if it ends the refresh.
///
/// A follower that is new or lost subscribes, in place of any subscription of its number, and empties its map. Any other one checks. If
/// the Check returns another stamp, the follower is lost.
pub(crate) fn call_once<S: StoreSeat>(
    seat: &mut S,
    alloc: Global,
    follower: &mut Follower,
) -> Result<Option<u64>, CallFault>
    requires { KeepsUpWith (S.seat seat.old).pass follower.old }
    ensures only { SeatCallsOnly (S.seat seat.old) (S.seat seat.new) follower.old 1 }
    ensures called { IfOk result (TakesOneCall (S.seat seat.old).pass (S.seat seat.new).pass follower.old follower.new) }
    ensures keeps { OnOk result (KeepsUpWith (S.seat seat.new).pass follower.new) }
    ensures same { IsSameFollower follower.old follower.new }
    ensures kept { OnErr result (KeepsMap (S.seat seat.old).pass (S.seat seat.new).pass follower.old follower.new) }
    ensures leads { OnOk result (FollowerIsLed (S.seat seat.old).pass (S.seat seat.new).pass follower.old follower.new) }
    ensures map { OnErr result (MapIsLed (S.seat seat.old).pass (S.seat seat.new).pass follower.old follower.new) }
    ensures fault { IfErr result (FailsOnce (S.seat seat.old).pass (S.seat seat.new).pass follower.old) }
{
    let Some(stamp) = follower.stamp else {
        let query = follower.query.copy(alloc)?;
        let told = seat.subscribe(follower.sub, query)?;
        follower.map.clear();
        follower.stamp = Some(told);
        return Ok(None);
    };
    let Shown {
        items,
        before,
        after,
        place,
    } = seat.check(follower.sub, MOST_ITEMS as u32)?;
    if before != stamp {
        follower.stamp = None;
        return Ok(None);
    }
    if let Err(stop) = follower.map.take(alloc, &items) {
        let _is_map = follower.map.held();
        return Err(match stop.fault {
            JoinFault::NoRoom => CallFault::NoRoom,
            _ => unreachable!(),
        });
    }
    follower.stamp = Some(after);
    if items.len() < MOST_ITEMS {
        Ok(Some(place + 1))
    } else {
        Ok(None)
    }
}
