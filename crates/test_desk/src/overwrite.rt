//! Calls of a machine, for measurements.

ghost use Rattle.std.specs.Prelude.{◌≡◌};
ghost use Rattle.desk.specs.Desk.{identity};
ghost use Rattle.desk.specs.Pass.{desk_of};

use crate::commands::label_of;
use crate::followed::Followed;
use crate::line::Sizes;
use crate::new_store::FIRST;
use desk::{Desk, Pass};
use std::alloc::Global;
use std::sync::Wait;
use std::thread::Threads;
use test_kit::{Board, Crew, DeskName, Task, Worker, run_crew};

/// The overwrites of one thread. Its label has the number of the thread's subscription, so no other thread overwrites it.
#[derive(Clone, Copy)]
pub(crate) struct Overwrite {
    pub calls: u32,
}

impl<M: Followed + Drop> Task<M> for Overwrite
where
    M::Command: Drop + Send,
    M::Reply: Drop + Send,
{
    fn work<R: Wait, D: DeskName>(
        &self,
        rt: &R,
        alloc: Global,
        desk: &Desk<M>,
        _board: &Board<M, D>,
        worker: &mut Worker<Pass<M>>,
    ) -> Option<()> {
        let number = subscribe(rt, alloc, desk, worker)?.wrapping_sub(FIRST);
        let label = label_of(number);
        for turn in 0..self.calls {
            start_again(rt, desk, worker, &label, number, turn)?;
        }
        Some(())
    }
}

// Subscribes to everything, and returns the stamp of the subscription.
fn subscribe<M: Followed + Drop, R: Wait>(
    rt: &R,
    alloc: Global,
    desk: &Desk<M>,
    worker: &mut Worker<Pass<M>>,
) -> Option<u64>
where
    M::Command: Drop,
    M::Reply: Drop,
    requires { desk_of worker.old.pass ≡ identity desk.now }
    ensures { desk_of worker.new.pass ≡ desk_of worker.old.pass }
{
    let answer = worker.call(rt, desk, M::follow(alloc, 0)?)?;
    M::stamp_in(&answer.reply)
}

// Publishes the label in a later generation, as RS.
fn start_again<M: Followed + Drop, R: Wait>(
    rt: &R,
    desk: &Desk<M>,
    worker: &mut Worker<Pass<M>>,
    label: &[u8],
    number: u64,
    turn: u32,
) -> Option<()>
where
    M::Command: Drop,
    M::Reply: Drop,
    requires { desk_of worker.old.pass ≡ identity desk.now }
    ensures { desk_of worker.new.pass ≡ desk_of worker.old.pass }
{
    let command = M::start(label, 1 + turn % 2_000_000, (number % 1000) as u16)?;
    worker.call(rt, desk, command)?;
    Some(())
}

/// Lets threads overwrite one label each at one new machine, which each thread follows. Returns `None` if memory or places run out.
pub(crate) fn overwrite_by_crew<M, R>(rt: &R, alloc: Global, sizes: Sizes) -> Option<Crew<M>>
where
    M: Followed + Send + Drop,
    M::Command: Drop + Send,
    M::Reply: Drop + Send,
    R: Threads + Wait + Sync,
{
    let Sizes { threads, calls } = sizes;
    let machine = M::begin_at(alloc, FIRST)?;
    run_crew(rt, alloc, machine, threads, Overwrite { calls })
}

/// Returns the number of bits that the threads raised.
pub(crate) fn overwrite_labels<M, R>(rt: &R, alloc: Global, sizes: Sizes) -> Option<u64>
where
    M: Followed + Send + Drop,
    M::Command: Drop + Send,
    M::Reply: Drop + Send,
    R: Threads + Wait + Sync,
{
    let crew = overwrite_by_crew::<M, R>(rt, alloc, sizes)?;
    Some(crew.raises)
}
