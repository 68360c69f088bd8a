//! Workers and their turns.

ghost use Rattle.std.specs.Prelude.{◌≡◌, true, false, IfErr, OnOk};
ghost use Rattle.ds_live.specs.Homes.{Home, home_of};
ghost use Rattle.ds_live.specs.Workers.{ComesBack, EndsBy, FailsToBegin, FailsToFinish, FailsTurn, Finishes, IsOf, TurnTaken, TookAll};
ghost use Rattle.ds_live.specs.Workers.{TookTurns, Worked, plain};

use crate::exchanging::{exchange, hand_over};
use crate::following::{bring_up, follow};
use crate::gate::Gate;
use crate::given_up::GivenUp;
use crate::publishing::{publish, publish_label};
use crate::task::Task;
use crate::worker_fault::WorkerFault;
use desk::{Desk, Pass};
use ds_store::Store;
use std::alloc::Global;
use std::sync::Wait;

/// A worker with its pass of the first desk. The type of the pass is a parameter, so that the compiler can tell a worker is `Send`.
#[derive(Drop)]
pub struct Worker<P> {
    /// The worker's number. Publishers come first, then subscribers, then the worker that exchanges.
    pub index: u32,
    /// The number of the worker's turns.
    pub turns: u32,
    /// The worker's pass of the first desk.
    pub pass: P,
    /// The worker's task.
    pub task: Task<P>,
    /// Why the worker ended early, if it did.
    pub fault: Option<WorkerFault>,
}

/// A worker at two desks of stores.
pub type StoreWorker = Worker<Pass<Box<Store>>>;

impl Worker<Pass<Box<Store>>> {
    /// Takes all of the worker's turns, and arrives at the gate before each one and after the last. A publisher first publishes its label,
    /// as RS. Ends early at a fault, or once the run is given up, and keeps which it was as its fault.
    pub(crate) fn work<W: Wait, G: Gate>(
        &mut self,
        rt: &W,
        alloc: Global,
        gate: &G,
        given_up: &GivenUp,
        first: &Desk<Box<Store>>,
        second: &Desk<Box<Store>>,
    )
        requires { IsOf (home_of first.now) (home_of second.now) self.old }
        ensures { Worked (G.answers gate.now) self.old self.new }
    {
        match self.take_turns(rt, alloc, gate, given_up, first, second) {
            Ok(()) => self.fault = None,
            Err(fault) => self.fault = Some(fault),
        }
    }

    // Publishes a publisher's label, before its turns. Another worker has nothing to do.
    fn begin<W: Wait>(&mut self, rt: &W, first: &Desk<Box<Store>>) -> Result<(), WorkerFault>
        requires { (other : Home) × IsOf (home_of first.now) other self.old }
        ensures back { ComesBack self.old self.new }
        ensures begun { OnOk result (TookTurns 0 (plain self.old) (plain self.new)) }
        ensures fault { IfErr result (FailsToBegin (plain self.old) (plain self.new)) }
    {
        match &self.task {
            Task::Publish => {
                publish_label(rt, first, &mut self.pass, self.index)?;
                Ok(())
            }
            _ => Ok(()),
        }
    }

    // Begins, and takes all of the worker's turns.
    fn take_turns<W: Wait, G: Gate>(
        &mut self,
        rt: &W,
        alloc: Global,
        gate: &G,
        given_up: &GivenUp,
        first: &Desk<Box<Store>>,
        second: &Desk<Box<Store>>,
    ) -> Result<(), WorkerFault>
        requires { IsOf (home_of first.now) (home_of second.now) self.old }
        ensures back { ComesBack self.old self.new }
        ensures took { OnOk result (TookAll (G.answers gate.now) (plain self.old) (plain self.new)) }
        ensures fault { IfErr result (EndsBy (G.answers gate.now) (plain self.old) (plain self.new)) }
    {
        self.begin(rt, first)?;
        for turn in 0..self.turns {
            if let Some(told) = given_up.told() {
                return Err(WorkerFault::GivenUp(told));
            }
            pass_gate(gate, self.index, turn)?;
            self.turn(rt, alloc, first, second, turn)?;
        }
        if let Some(told) = given_up.told() {
            return Err(WorkerFault::GivenUp(told));
        }
        pass_gate(gate, self.index, self.turns)
    }

    // Takes one turn.
    fn turn<W: Wait>(
        &mut self,
        rt: &W,
        alloc: Global,
        first: &Desk<Box<Store>>,
        second: &Desk<Box<Store>>,
        turn: u32,
    ) -> Result<(), WorkerFault>
        requires { IsOf (home_of first.now) (home_of second.now) self.old }
        ensures back { ComesBack self.old self.new }
        ensures taken { OnOk result (TurnTaken turn (plain self.old) (plain self.new)) }
        ensures fault { IfErr result (FailsTurn turn (plain self.old) (plain self.new)) }
    {
        match &mut self.task {
            Task::Publish => {
                publish(rt, first, &mut self.pass, self.index, turn)?;
                Ok(())
            }
            Task::Follow(follower) => follow(rt, alloc, first, &mut self.pass, follower, turn),
            Task::Exchange { other, cursor } => {
                exchange(rt, first, &mut self.pass, second, other, cursor)?;
                Ok(())
            }
        }
    }

    /// Brings a subscriber's map up to date, or exchanges what is left. Is for the time after the turns of all workers.
    pub fn finish<W: Wait>(
        &mut self,
        rt: &W,
        alloc: Global,
        first: &Desk<Box<Store>>,
        second: &Desk<Box<Store>>,
    ) -> Result<(), WorkerFault>
        requires { IsOf (home_of first.now) (home_of second.now) self.old }
        ensures back { ComesBack self.old self.new }
        ensures kept { self.new.fault ≡ self.old.fault }
        ensures done { OnOk result (Finishes (plain self.old) (plain self.new)) }
        ensures fault { IfErr result (FailsToFinish (plain self.old) (plain self.new)) }
    {
        match &mut self.task {
            Task::Publish => Ok(()),
            Task::Follow(follower) => {
                bring_up(rt, alloc, first, &mut self.pass, follower)?;
                Ok(())
            }
            Task::Exchange { other, cursor } => {
                hand_over(rt, first, &mut self.pass, second, other, cursor)?;
                Ok(())
            }
        }
    }
}

// Arrives at the gate before a turn, or after the last one. Fails if the gate turns the worker away.
fn pass_gate<G: Gate>(gate: &G, worker: u32, turn: u32) -> Result<(), WorkerFault>
    ensures passed { OnOk result (G.answers gate.now worker turn true) }
    ensures shut { IfErr result (λ fault. (fault ≡ WorkerFault.GateShut) × G.answers gate.now worker turn false) }
{
    if gate.arrive(worker, turn) {
        Ok(())
    } else {
        Err(WorkerFault::GateShut)
    }
}
