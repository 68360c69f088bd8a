//! The work of the threads that follow or change a store.

ghost use Rattle.std.specs.Prelude.{◌≡◌};
ghost use Rattle.desk.specs.Desk.{identity};
ghost use Rattle.desk.specs.Pass.{desk_of};
ghost use Rattle.desk_store.specs.Record.{pass_record};
ghost use Rattle.desk_store.specs.KeepsUp.{KeepsUpWith};

use crate::asked::{command_of, query};
use crate::line::Sizes;
use crate::mark::mark_of_map;
use desk::{Answer, Desk, Pass};
use desk_store::{CallFault, Follower, Fresh, RefreshFault, Seat, refresh};
use ds_machine::{Refusal, Reply};
use ds_store::Store;
use std::alloc::Global;
use std::sync::Wait;
use std::sync::atomic::{AtomicU32, Ordering};
use test_kit::{Board, DeskName, Kept, Said, Task, Worker};

/// The turn with which a refresh is kept. No writer has as many turns.
pub(crate) const REFRESHED: u32 = u32::MAX;

/// The work of one thread: the first threads that begin follow the store, and the others change it.
#[derive(Drop)]
pub(crate) struct Watch {
    pub sizes: Sizes,
    pub begun: AtomicU32,
}

impl Task<Box<Store>> for Watch {
    fn work<R: Wait, D: DeskName>(
        &self,
        rt: &R,
        alloc: Global,
        desk: &Desk<Box<Store>>,
        _board: &Board<Box<Store>, D>,
        worker: &mut Worker<Pass<Box<Store>>>,
    ) -> Option<()> {
        let number = self.begun.fetch_add(1, Ordering::SeqCst);
        if number < self.sizes.followers {
            follow(rt, alloc, desk, worker, number, self.sizes.calls)
        } else {
            change(rt, desk, worker, u64::from(number), self.sizes.calls)
        }
    }
}

// Makes a writer's calls, and keeps each with its place.
fn change<R: Wait>(
    rt: &R,
    desk: &Desk<Box<Store>>,
    worker: &mut Worker<Pass<Box<Store>>>,
    writer: u64,
    calls: u32,
) -> Option<()>
    requires { desk_of worker.old.pass ≡ identity desk.now }
    ensures { desk_of worker.new.pass ≡ desk_of worker.old.pass }
{
    for turn in 0..calls {
        let answer = worker.call(rt, desk, command_of(writer, turn)?)?;
        worker.said.push(said_of(writer, turn, answer)).ok()?;
    }
    Some(())
}

// Returns the record of an answer to a writer.
fn said_of(writer: u64, turn: u32, answer: Answer<Reply>) -> Said {
    let kept = match answer.reply {
        Reply::Refused(Refusal::NoRoom) => Kept::NoRoom,
        _ => Kept::Reply { mark: 0, owed: 0 },
    };
    Said {
        seen: writer,
        turn,
        place: answer.place,
        kept,
    }
}

// Refreshes a new follower several times.
fn follow<R: Wait>(
    rt: &R,
    alloc: Global,
    desk: &Desk<Box<Store>>,
    worker: &mut Worker<Pass<Box<Store>>>,
    number: u32,
    calls: u32,
) -> Option<()>
    requires { desk_of worker.old.pass ≡ identity desk.now }
    ensures { desk_of worker.new.pass ≡ desk_of worker.old.pass }
{
    let Ok(mut follower) = Follower::new(alloc, number, query(alloc, b".*")?) else {
        return None;
    };
    follow_often(rt, alloc, desk, worker, &mut follower, calls)
}

// Refreshes a follower in each turn. In every sixteenth one the follower is made lost, and begins again.
fn follow_often<R: Wait>(
    rt: &R,
    alloc: Global,
    desk: &Desk<Box<Store>>,
    worker: &mut Worker<Pass<Box<Store>>>,
    follower: &mut Follower,
    calls: u32,
) -> Option<()>
    requires of_desk { desk_of worker.old.pass ≡ identity desk.now }
    requires keeps { KeepsUpWith (pass_record worker.old.pass) follower.old }
    ensures { desk_of worker.new.pass ≡ desk_of worker.old.pass }
{
    for turn in 0..calls {
        follow_once(rt, alloc, desk, worker, follower)?;
        if turn % 16 == 15 {
            follower.lose();
        }
    }
    Some(())
}

// Makes one refresh. If it reached a place, keeps the place with the map's entries. If memory ran out, keeps nothing.
fn follow_once<R: Wait>(
    rt: &R,
    alloc: Global,
    desk: &Desk<Box<Store>>,
    worker: &mut Worker<Pass<Box<Store>>>,
    follower: &mut Follower,
) -> Option<()>
    requires of_desk { desk_of worker.old.pass ≡ identity desk.now }
    requires keeps { KeepsUpWith (pass_record worker.old.pass) follower.old }
    ensures stays { desk_of worker.new.pass ≡ desk_of worker.old.pass }
    ensures keeps { KeepsUpWith (pass_record worker.new.pass) follower.new }
{
    let mut seat = Seat::new(rt, desk, &mut worker.pass);
    let fresh = refresh(&mut seat, alloc, follower, 65536);
    let _pass = seat.leave();
    match fresh {
        Ok(Fresh::UpTo(place)) => {
            let view = view_of(alloc, follower, place)?;
            worker.said.push(view).ok()
        }
        Ok(Fresh::More) | Err(RefreshFault::Call(CallFault::NoRoom)) => Some(()),
        Err(_) => None,
    }
}

// Returns the record of a map that was brought up to a place, or `None` if memory runs out.
fn view_of(alloc: Global, follower: &Follower, place: u64) -> Option<Said> {
    let entries = follower.map().entries(alloc).ok()?;
    let mark = mark_of_map(alloc, &entries)?;
    Some(Said {
        seen: u64::from(follower.sub()),
        turn: REFRESHED,
        place,
        kept: Kept::Reply { mark, owed: 0 },
    })
}
