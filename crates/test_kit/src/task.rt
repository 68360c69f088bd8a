//! The task of a crew.

ghost use Rattle.std.specs.Prelude.{◌≡◌};
ghost use Rattle.desk.specs.Desk.{identity};
ghost use Rattle.desk.specs.Pass.{desk_of};

use crate::board::{Board, DeskName};
use crate::worker::Worker;
use desk::{Desk, Pass};
use history::Machine;
use std::alloc::Global;
use std::sync::Wait;

/// What each thread does at the desk.
pub trait Task<M: Machine> {
    /// Runs the task on one thread. `None`: it ended early, since memory, places or notes ran out.
    fn work<R: Wait, D: DeskName>(
        &self,
        rt: &R,
        alloc: Global,
        desk: &Desk<M>,
        board: &Board<M, D>,
        worker: &mut Worker<Pass<M>>,
    ) -> Option<()>
        requires named { identity desk.now ≡ D.table }
        requires pass { desk_of worker.old.pass ≡ identity desk.now }
        ensures { desk_of worker.new.pass ≡ desk_of worker.old.pass };
}
