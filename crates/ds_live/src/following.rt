//! The turns of subscribers.

ghost use Rattle.std.specs.Prelude.{◌≡◌, None, IfErr, OnOk};
ghost use Rattle.desk.specs.Desk.{identity};
ghost use Rattle.desk.specs.Pass.{desk_of};
ghost use Rattle.desk_store.specs.Record.{pass_record as seen};
ghost use Rattle.desk_store.specs.Follower.{IsSameFollower};
ghost use Rattle.desk_store.specs.KeepsUp.{KeepsUpWith};
ghost use Rattle.desk_store.specs.Refresh.{CallsOnly};
ghost use Rattle.desk_store.specs.RefreshFaults.{IsRefreshFault};
ghost use Rattle.ds_live.specs.Turns.{FailsBringingUp, FailsFollowing, HasCalled, HasFollowed, HasRefreshed, SeatHasCalled};
ghost use Rattle.ds_live.specs.Workers.{HasBroughtUp};

use crate::worker_fault::WorkerFault;
use desk::{Desk, Pass};
use desk_store::{Follower, Fresh, RefreshFault, Seat, refresh};
use ds_store::Store;
use std::alloc::Global;
use std::sync::Wait;

/// Takes a subscriber's turn: takes its server's notices, and refreshes its follower by at most 8 calls. Makes the follower lost after
/// turn 1.
pub(crate) fn follow<W: Wait>(
    rt: &W,
    alloc: Global,
    desk: &Desk<Box<Store>>,
    pass: &mut Pass<Box<Store>>,
    follower: &mut Follower,
    turn: u32,
) -> Result<(), WorkerFault>
    requires of_desk { desk_of pass.old ≡ identity desk.now }
    requires keeps { KeepsUpWith (seen pass.old) follower.old }
    ensures stays { desk_of pass.new ≡ desk_of pass.old }
    ensures called { HasCalled (seen pass.old) (seen pass.new) }
    ensures keeps { KeepsUpWith (seen pass.new) follower.new }
    ensures same { IsSameFollower follower.old follower.new }
    ensures followed { OnOk result (HasFollowed pass.old pass.new follower.old) }
    ensures refreshed { OnOk result (HasRefreshed (seen pass.old) (seen pass.new) follower.old) }
    ensures lost { turn ≡ 1 → OnOk result (follower.new.stamp ≡ None) }
    ensures fault { IfErr result (FailsFollowing (seen pass.old) (seen pass.new) follower.old) }
{
    let _taken = desk.take(pass, follower.sub() / 8)?;
    refresh_once(rt, alloc, desk, pass, follower, turn)?;
    Ok(())
}

// Refreshes a follower by at most 8 calls, and makes it lost after turn 1.
fn refresh_once<W: Wait>(
    rt: &W,
    alloc: Global,
    desk: &Desk<Box<Store>>,
    pass: &mut Pass<Box<Store>>,
    follower: &mut Follower,
    turn: u32,
) -> Result<(), RefreshFault>
    requires of_desk { desk_of pass.old ≡ identity desk.now }
    requires keeps { KeepsUpWith (seen pass.old) follower.old }
    ensures stays { desk_of pass.new ≡ desk_of pass.old }
    ensures called { HasCalled (seen pass.old) (seen pass.new) }
    ensures keeps { KeepsUpWith (seen pass.new) follower.new }
    ensures same { IsSameFollower follower.old follower.new }
    ensures refreshed { OnOk result (HasRefreshed (seen pass.old) (seen pass.new) follower.old) }
    ensures lost { turn ≡ 1 → OnOk result (follower.new.stamp ≡ None) }
    ensures only { CallsOnly (seen pass.old) (seen pass.new) follower.old 8 }
    ensures fault { IfErr result (IsRefreshFault 8 (seen pass.old) (seen pass.new) follower.old) }
{
    let mut seat = Seat::new(rt, desk, pass);
    let told = refresh_at(&mut seat, alloc, follower, turn);
    let _pass = seat.leave();
    told
}

// Like `refresh_once`, at a seat.
fn refresh_at<W: Wait>(
    seat: &mut Seat<'_, W>,
    alloc: Global,
    follower: &mut Follower,
    turn: u32,
) -> Result<(), RefreshFault>
    requires { KeepsUpWith seat.old.pass follower.old }
    ensures called { SeatHasCalled seat.old seat.new }
    ensures keeps { KeepsUpWith seat.new.pass follower.new }
    ensures same { IsSameFollower follower.old follower.new }
    ensures refreshed { OnOk result (HasRefreshed seat.old.pass seat.new.pass follower.old) }
    ensures lost { turn ≡ 1 → OnOk result (follower.new.stamp ≡ None) }
    ensures only { CallsOnly seat.old.pass seat.new.pass follower.old 8 }
    ensures fault { IfErr result (IsRefreshFault 8 seat.old.pass seat.new.pass follower.old) }
{
    let _fresh = refresh(seat, alloc, follower, 8)?;
    if turn == 1 {
        follower.lose();
    }
    Ok(())
}

/// Refreshes a follower until its map is up to date.
pub(crate) fn bring_up<W: Wait>(
    rt: &W,
    alloc: Global,
    desk: &Desk<Box<Store>>,
    pass: &mut Pass<Box<Store>>,
    follower: &mut Follower,
) -> Result<(), RefreshFault>
    requires of_desk { desk_of pass.old ≡ identity desk.now }
    requires keeps { KeepsUpWith (seen pass.old) follower.old }
    ensures stays { desk_of pass.new ≡ desk_of pass.old }
    ensures called { HasCalled (seen pass.old) (seen pass.new) }
    ensures keeps { KeepsUpWith (seen pass.new) follower.new }
    ensures same { IsSameFollower follower.old follower.new }
    ensures brought { OnOk result (HasBroughtUp (seen pass.old) (seen pass.new) follower.old follower.new) }
    ensures fault { IfErr result (FailsBringingUp (seen pass.old) (seen pass.new) follower.old) }
{
    let mut seat = Seat::new(rt, desk, pass);
    let told = bring_up_at(&mut seat, alloc, follower);
    let _pass = seat.leave();
    told
}

// Like `bring_up`, at a seat.
fn bring_up_at<W: Wait>(
    seat: &mut Seat<'_, W>,
    alloc: Global,
    follower: &mut Follower,
) -> Result<(), RefreshFault>
    requires { KeepsUpWith seat.old.pass follower.old }
    ensures called { SeatHasCalled seat.old seat.new }
    ensures keeps { KeepsUpWith seat.new.pass follower.new }
    ensures same { IsSameFollower follower.old follower.new }
    ensures brought { OnOk result (HasBroughtUp seat.old.pass seat.new.pass follower.old follower.new) }
    ensures fault { IfErr result (FailsBringingUp seat.old.pass seat.new.pass follower.old) }
{
    for _ in seat.rt().forever() {
        let fresh = refresh(seat, alloc, follower, 65536)?;
        if let Fresh::UpTo(_) = fresh {
            return Ok(());
        }
    }
    unreachable!()
}
