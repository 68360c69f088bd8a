//! The calls of threads that are compared with one thread's.

ghost use Rattle.std.specs.Prelude.{◌≡◌};
ghost use Rattle.desk.specs.Desk.{identity};
ghost use Rattle.desk.specs.Pass.{desk_of};

use crate::compared::Compared;
use desk::{Answer, Desk, Pass};
use std::alloc::Global;
use std::sync::Wait;
use test_kit::{Board, DeskName, Said, Task, Worker};

/// The calls of one thread. A take follows every fourth call, and a note for another thread every eighth.
#[derive(Clone, Copy)]
pub(crate) struct Share {
    /// The number of calls of each thread.
    pub calls: u32,
}

impl<M: Compared + Drop> Task<M> for Share
where
    M::Command: Drop + Send,
    M::Reply: Drop + Send,
{
    fn work<R: Wait, D: DeskName>(
        &self,
        rt: &R,
        alloc: Global,
        desk: &Desk<M>,
        board: &Board<M, D>,
        worker: &mut Worker<Pass<M>>,
    ) -> Option<()> {
        for turn in 0..self.calls {
            call_once(rt, alloc, desk, worker, turn)?;
            if turn % 4 == 3 {
                worker.take(desk, turn / 4 % 16)?;
            }
            if turn % 8 == 5 {
                worker.swap_notes(rt, desk, board)?;
            }
        }
        worker.take_note(rt, desk, board)
    }
}

// Makes the call of a turn, and keeps the answer.
fn call_once<M: Compared + Drop, R: Wait>(
    rt: &R,
    alloc: Global,
    desk: &Desk<M>,
    worker: &mut Worker<Pass<M>>,
    turn: u32,
) -> Option<()>
where
    M::Command: Drop,
    M::Reply: Drop,
    requires { desk_of worker.old.pass ≡ identity desk.now }
    ensures { desk_of worker.new.pass ≡ desk_of worker.old.pass }
{
    let seen = desk.front(&mut worker.pass);
    let command = M::command_of(alloc, seen, turn)?;
    let answer = worker.call(rt, desk, command)?;
    keep::<M>(alloc, &mut worker.said, seen, turn, &answer)
}

// Keeps a call's answer. Returns `None` if memory runs out.
fn keep<M: Compared>(
    alloc: Global,
    said: &mut Vec<Said>,
    seen: u64,
    turn: u32,
    answer: &Answer<M::Reply>,
) -> Option<()> {
    let kept = M::kept_of(alloc, &answer.reply)?;
    let place = answer.place;
    let one = Said {
        seen,
        turn,
        place,
        kept,
    };
    said.push(one).ok()
}
