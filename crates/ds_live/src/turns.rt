//! A worker's turns, as a thread's job.

ghost use Rattle.ds_live.specs.Homes.{home_of};
ghost use Rattle.ds_live.specs.Workers.{IsOf, Worked};

use crate::gate::Gate;
use crate::given_up::GivenUp;
use crate::job::Job;
use crate::worker::{StoreWorker, Worker};
use desk::{Desk, Pass};
use ds_store::Store;
use std::alloc::Global;
use std::sync::Wait;

/// The two desks that all workers share. The type of a desk is a parameter, so that the compiler finds `Desks` to be `Sync`.
#[derive(Drop)]
pub struct Desks<D> {
    /// The desk of the store that publishers change and subscribers follow.
    pub first: D,
    /// The desk of the store that gets what the first one holds.
    pub second: D,
}

/// A worker with all that its turns need. Each type is a parameter, so that the compiler finds `Turns` to be `Send`.
#[derive(Drop)]
pub struct Turns<'e, R, G, D, W> {
    /// The handle by which a worker waits.
    pub rt: &'e R,
    /// The allocator.
    pub alloc: Global,
    /// The gate before each turn.
    pub gate: &'e G,
    /// The flag that says whether the run was given up.
    pub given_up: &'e GivenUp,
    /// The desks.
    pub desks: &'e D,
    /// The worker.
    pub worker: W,
}

/// The turns of a worker at two desks of stores.
pub type StoreTurns<'e, R, G> = Turns<'e, R, G, Desks<Desk<Box<Store>>>, StoreWorker>;

impl<'e, R: Wait, G: Gate> Job
    for Turns<'e, R, G, Desks<Desk<Box<Store>>>, Worker<Pass<Box<Store>>>> {
    ghost can_run = { λ j. IsOf (home_of j.desks.now.first) (home_of j.desks.now.second) j.worker };

    ghost comes_back = { λ j k. Worked (G.answers j.gate.now) j.worker k.worker };

    fn run(self) -> StoreTurns<'e, R, G> {
        let Turns {
            rt,
            alloc,
            gate,
            given_up,
            desks,
            mut worker,
        } = self;
        worker.work(rt, alloc, gate, given_up, &desks.first, &desks.second);
        Turns {
            rt,
            alloc,
            gate,
            given_up,
            desks,
            worker,
        }
    }
}
