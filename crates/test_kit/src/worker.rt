//! One thread at the desk.

ghost use Rattle.std.specs.Prelude.{◌≡◌};
ghost use Rattle.desk.specs.Desk.{identity};
ghost use Rattle.desk.specs.Pass.{desk_of};

use crate::board::{Board, DeskName, Left};
use crate::kept::Kept;
use desk::{Answer, Desk, Pass};
use history::Machine;
use std::alloc::Global;
use std::sync::Wait;

/// One call that was answered.
#[derive(Clone, Copy)]
pub struct Said {
    /// How many calls the thread had seen before it.
    pub seen: u64,
    /// The number of the call among the thread's, from 0.
    pub turn: u32,
    /// Its place in the history.
    pub place: u64,
    /// What is kept of the answer.
    pub kept: Kept,
}

/// A thread's pass, with its answers and counts. The pass is a plain parameter, so the toolchain finds that a worker
/// may cross threads.
#[derive(Drop)]
pub struct Worker<P> {
    /// Its pass.
    pub pass: P,
    /// Its calls, in order.
    pub said: Vec<Said>,
    /// How many bits its calls raised.
    pub raises: u64,
    /// How many bits its takes returned.
    pub takes: u64,
    /// Whether it did the whole task, with memory for it.
    pub done: bool,
    /// Whether, after learning a note, it ever looked less far than the thread that made the note.
    pub behind: bool,
}

impl<M: Machine> Worker<Pass<M>> {
    /// Returns a thread that has made no call.
    pub(crate) fn new(alloc: Global, pass: Pass<M>) -> Worker<Pass<M>>
        ensures { desk_of result.pass ≡ desk_of pass }
    {
        Worker {
            pass,
            said: Vec::new(alloc),
            raises: 0,
            takes: 0,
            done: false,
            behind: false,
        }
    }

    /// Makes one call, and counts the bits that it raised. `None` if no place is left.
    pub fn call<R: Wait>(
        &mut self,
        rt: &R,
        desk: &Desk<M>,
        command: M::Command,
    ) -> Option<Answer<M::Reply>>
    where
        M::Command: Drop,
        requires { desk_of self.old.pass ≡ identity desk.now }
        ensures { desk_of self.new.pass ≡ desk_of self.old.pass }
    {
        let answer = desk.call(rt, &mut self.pass, command).ok()?;
        let raised = u64::from(answer.raised.count_ones());
        self.raises = self.raises.wrapping_add(raised);
        Some(answer)
    }

    /// Takes the notices of a server, and counts them. `None` if there is no such server.
    pub fn take(&mut self, desk: &Desk<M>, server: u32) -> Option<()>
        requires { desk_of self.old.pass ≡ identity desk.now }
        ensures { desk_of self.new.pass ≡ desk_of self.old.pass }
    {
        let taken = desk.take(&mut self.pass, server).ok()?;
        self.takes = self.takes.wrapping_add(u64::from(taken.bits.count_ones()));
        Some(())
    }

    /// Leaves a note on the board, and learns the one that was there. `None` if no more notes may be made or learnt.
    pub fn swap_notes<R: Wait, D: DeskName>(
        &mut self,
        rt: &R,
        desk: &Desk<M>,
        board: &Board<M, D>,
    ) -> Option<()>
    where
        M: Drop,
        M::Command: Drop,
        M::Reply: Drop,
        requires named { identity desk.now ≡ D.table }
        requires pass { desk_of self.old.pass ≡ identity desk.now }
        ensures { desk_of self.new.pass ≡ desk_of self.old.pass }
    {
        let front = desk.front(&mut self.pass);
        let note = desk.note(&mut self.pass).ok()?;
        let there = board.lock(rt).replace(Left::new(note, front));
        self.learn(desk, there)
    }

    /// Learns the note on the board, if there is one. `None` if no more notes may be learnt.
    pub fn take_note<R: Wait, D: DeskName>(
        &mut self,
        rt: &R,
        desk: &Desk<M>,
        board: &Board<M, D>,
    ) -> Option<()>
    where
        M: Drop,
        M::Command: Drop,
        M::Reply: Drop,
        requires named { identity desk.now ≡ D.table }
        requires pass { desk_of self.old.pass ≡ identity desk.now }
        ensures { desk_of self.new.pass ≡ desk_of self.old.pass }
    {
        let there = board.lock(rt).take();
        self.learn(desk, there)
    }

    // Learns another thread's note, if there is one.
    fn learn<D: DeskName>(&mut self, desk: &Desk<M>, there: Option<Left<M, D>>) -> Option<()>
    where
        M: Drop,
        M::Command: Drop,
        M::Reply: Drop,
        requires named { identity desk.now ≡ D.table }
        requires pass { desk_of self.old.pass ≡ identity desk.now }
        ensures { desk_of self.new.pass ≡ desk_of self.old.pass }
    {
        if let Some(left) = there {
            let (note, front) = left.into_note();
            desk.learn(&mut self.pass, note).ok()?;
            let behind = desk.front(&mut self.pass) < front;
            self.behind |= behind;
        }
        Some(())
    }
}
