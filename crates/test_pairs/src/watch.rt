//! The work of the threads that call RS and its store, and of those that follow the store.

ghost use Rattle.std.specs.Prelude.{◌≡◌};
ghost use Rattle.desk.specs.Desk.{identity};
ghost use Rattle.desk.specs.Pass.{desk_of};
ghost use Rattle.desk_store.specs.KeepsUp.{KeepsUpWith};
ghost use Rattle.desk_store.specs.PairRecord.{pair_record};

use crate::asked::{Known, command_of, query};
use crate::line::Sizes;
use crate::mark::{kept_of, mark_of_map};
use desk::{Desk, Pass};
use desk_store::{CallFault, Follower, Fresh, PairSeat, RefreshFault, refresh};
use ds_entry::Value;
use ds_machine::Reply;
use rs_store::{RsReply, RsStore};
use std::alloc::Global;
use std::sync::Wait;
use std::sync::atomic::{AtomicU32, Ordering};
use test_kit::{Board, DeskName, Kept, Said, Task, Worker};

/// The turn with which a refresh is kept. No caller has as many turns.
pub(crate) const REFRESHED: u32 = u32::MAX;

/// The work of one thread: the first threads that begin follow the store, and the others call.
#[derive(Drop)]
pub(crate) struct Watch {
    pub sizes: Sizes,
    pub begun: AtomicU32,
}

impl Task<Box<RsStore>> for Watch {
    fn work<R: Wait, D: DeskName>(
        &self,
        rt: &R,
        alloc: Global,
        desk: &Desk<Box<RsStore>>,
        board: &Board<Box<RsStore>, D>,
        worker: &mut Worker<Pass<Box<RsStore>>>,
    ) -> Option<()> {
        let number = self.begun.fetch_add(1, Ordering::SeqCst);
        let followers = self.sizes.followers;
        let calls = self.sizes.calls;
        if number < followers {
            return follow(rt, alloc, desk, worker, number, calls);
        }
        let mut known = Known {
            caller: 32 + number.wrapping_sub(followers) % 32,
            seen: 0,
            generation: 1,
            slot: 0,
        };
        for turn in 0..calls {
            call_once(rt, alloc, desk, worker, &mut known, turn)?;
            if turn % 4 == 3 {
                worker.take(desk, turn / 4 % 16)?;
            }
            if turn % 8 == 5 {
                worker.swap_notes(rt, desk, board)?;
            }
        }
        worker.take_note(rt, desk, board)
    }
}

// Makes the call of a caller's turn, and keeps its answer.
fn call_once<R: Wait>(
    rt: &R,
    alloc: Global,
    desk: &Desk<Box<RsStore>>,
    worker: &mut Worker<Pass<Box<RsStore>>>,
    known: &mut Known,
    turn: u32,
) -> Option<()>
    requires { desk_of worker.old.pass ≡ identity desk.now }
    ensures { desk_of worker.new.pass ≡ desk_of worker.old.pass }
{
    known.seen = desk.front(&mut worker.pass);
    let command = command_of(alloc, *known, turn)?;
    let answer = worker.call(rt, desk, command)?;
    let one = Said {
        seen: known.number(),
        turn,
        place: answer.place,
        kept: kept_of(alloc, &answer.reply)?,
    };
    learn_instance(known, &answer.reply);
    worker.said.push(one).ok()
}

// Takes the instance that a Retrieve of a label found.
fn learn_instance(known: &mut Known, reply: &RsReply) {
    if let RsReply::Replied(Reply::Found(Value::Label(endpoint))) = reply {
        known.generation = endpoint.generation().number();
        known.slot = endpoint.slot();
    }
}

// Refreshes a new follower several times.
fn follow<R: Wait>(
    rt: &R,
    alloc: Global,
    desk: &Desk<Box<RsStore>>,
    worker: &mut Worker<Pass<Box<RsStore>>>,
    number: u32,
    calls: u32,
) -> Option<()>
    requires { desk_of worker.old.pass ≡ identity desk.now }
    ensures { desk_of worker.new.pass ≡ desk_of worker.old.pass }
{
    let Ok(mut follower) = Follower::new(alloc, number, query(alloc, b".*")?) else {
        return None;
    };
    follow_often(rt, alloc, desk, worker, &mut follower, calls)
}

// Refreshes a follower in each turn. In every sixteenth one the follower is made lost, and begins again.
fn follow_often<R: Wait>(
    rt: &R,
    alloc: Global,
    desk: &Desk<Box<RsStore>>,
    worker: &mut Worker<Pass<Box<RsStore>>>,
    follower: &mut Follower,
    calls: u32,
) -> Option<()>
    requires of_desk { desk_of worker.old.pass ≡ identity desk.now }
    requires keeps { KeepsUpWith (pair_record worker.old.pass) follower.old }
    ensures { desk_of worker.new.pass ≡ desk_of worker.old.pass }
{
    for turn in 0..calls {
        follow_once(rt, alloc, desk, worker, follower)?;
        if turn % 16 == 15 {
            follower.lose();
        }
    }
    Some(())
}

// Makes one refresh. If it reached a place, keeps the place with the map's entries. If memory ran out, keeps nothing.
fn follow_once<R: Wait>(
    rt: &R,
    alloc: Global,
    desk: &Desk<Box<RsStore>>,
    worker: &mut Worker<Pass<Box<RsStore>>>,
    follower: &mut Follower,
) -> Option<()>
    requires of_desk { desk_of worker.old.pass ≡ identity desk.now }
    requires keeps { KeepsUpWith (pair_record worker.old.pass) follower.old }
    ensures stays { desk_of worker.new.pass ≡ desk_of worker.old.pass }
    ensures keeps { KeepsUpWith (pair_record worker.new.pass) follower.new }
{
    let mut seat = PairSeat::new(rt, desk, &mut worker.pass);
    let fresh = refresh(&mut seat, alloc, follower, 65536);
    let _pass = seat.leave();
    match fresh {
        Ok(Fresh::UpTo(place)) => {
            let view = view_of(alloc, follower, place)?;
            worker.said.push(view).ok()
        }
        Ok(Fresh::More) | Err(RefreshFault::Call(CallFault::NoRoom)) => Some(()),
        Err(_) => None,
    }
}

// Returns the record of a map that was brought up to a place, or `None` if memory runs out.
fn view_of(alloc: Global, follower: &Follower, place: u64) -> Option<Said> {
    let entries = follower.map().entries(alloc).ok()?;
    let mark = mark_of_map(alloc, &entries)?;
    Some(Said {
        seen: u64::from(follower.sub()),
        turn: REFRESHED,
        place,
        kept: Kept::Reply { mark, owed: 0 },
    })
}
