//! The end of the workers, which hand their passes back.

ghost use Rattle.std.specs.Prelude.{All, ◌≡◌, ◌≤◌, ◌<◌, ◌+◌, ◌++◌, ◌∷◌, [], length, map, sum_by, None};
ghost use Rattle.std.specs.Prelude.{vec_capacity, OnOk, IfErr, IfNone, IfSome};
ghost use Rattle.std.specs.declared.option.Option.TheVariants.{Some};
ghost use Rattle.ds_live.specs.Workers.{ComesBack, Finishes, IsAtHome, IsOf, others_in, plain};
ghost use Rattle.ds_live.specs.Dismissed.{HandBack, IsLeft, KeepsOwn, Leaves};
ghost use Rattle.ds_live.specs.Faults.{IsFaultOr};
ghost use Rattle.ds_live.specs.Homes.{home_of};
ghost use Rattle.ds_live.specs.Tasks.{IsOther, followers_in, passes_in};

use crate::back::Back;
use crate::gate::Gate;
use crate::live_fault::LiveFault;
use crate::task::Task;
use crate::turns::{Desks, StoreTurns, Turns};
use crate::worker::{StoreWorker, Worker};
use crate::working::own_fault;
use desk::{Desk, Pass};
use ds_store::Store;
use std::alloc::Global;
use std::sync::Wait;

/// Takes all passes back. If there is no fault, each worker finishes first, in the order of their numbers. Returns the fault, or that of
/// the first worker that can't finish.
pub(crate) fn dismiss<R: Wait, G: Gate>(
    rt: &R,
    alloc: Global,
    desks: &Desks<Desk<Box<Store>>>,
    mut jobs: Vec<StoreTurns<'_, R, G>>,
    mut fault: Option<LiveFault>,
    back: &mut Back<Pass<Box<Store>>>,
) -> Option<LiveFault>
    requires of_desks { All (λ j. IsOf (home_of desks.now.first) (home_of desks.now.second) j.worker) jobs.items }
    requires idle { IfNone fault (All (λ j. j.worker.fault ≡ None) jobs.items) }
    requires taken { (back.old.passes.items ≡ []) × (back.old.others.items ≡ []) × (back.old.followers.items ≡ []) }
    requires room { length jobs.items ≤ vec_capacity back.old.passes }
    requires others_room { sum_by (λ j. others_in j.worker.task) jobs.items ≤ vec_capacity back.old.others }
    ensures passes { All (λ p. IsAtHome (home_of desks.now.first) p) back.new.passes.items }
    ensures others { All (λ p. IsAtHome (home_of desks.now.second) p) back.new.others.items }
    ensures all { length back.new.passes.items ≡ length jobs.entry.items }
    ensures all_others { length back.new.others.items ≡ sum_by (λ j. others_in j.worker.task) jobs.entry.items }
    ensures finished { IfNone result (HandBack (map (λ j. j.worker) jobs.entry.items)
        back.new.passes.items back.new.others.items back.new.followers.items) }
    ensures left { Leaves fault result (map (λ j. j.worker) jobs.entry.items) back.new.passes.items back.new.others.items }
    ensures kept { IfSome fault (λ was. result ≡ Some was) }
{
    while let Some(job) = jobs.pop() {
        let Turns { mut worker, .. } = job;
        fault = finish(rt, alloc, desks, &mut worker, fault);
        fault = hand_back(&desks.second, worker, fault, back);
    }
    fault
}

// Takes back what a worker has. Returns the fault, or NoRoom if memory runs out for a follower.
fn hand_back(
    second: &Desk<Box<Store>>,
    worker: StoreWorker,
    fault: Option<LiveFault>,
    back: &mut Back<Pass<Box<Store>>>,
) -> Option<LiveFault>
    requires task { IsOther (home_of second.now) worker.task }
    requires others { All (λ p. IsAtHome (home_of second.now) p) back.old.others.items }
    requires room { length back.old.passes.items < vec_capacity back.old.passes }
    requires others_room { others_in worker.task + length back.old.others.items ≤ vec_capacity back.old.others }
    ensures home { All (λ p. IsAtHome (home_of second.now) p) back.new.others.items }
    ensures all { length back.new.others.items ≡ others_in worker.task + length back.old.others.items }
    ensures room { (vec_capacity back.new.passes ≡ vec_capacity back.old.passes)
        × (vec_capacity back.new.others ≡ vec_capacity back.old.others) }
    ensures passes { back.new.passes.items ≡ back.old.passes.items ++ worker.pass ∷ [] }
    ensures others { back.new.others.items ≡ back.old.others.items ++ passes_in worker.task }
    ensures followers { IfNone result (back.new.followers.items ≡ back.old.followers.items ++ followers_in worker.task) }
    ensures kept { IfSome fault (λ was. result ≡ Some was) }
    ensures cause { IsFaultOr (λ told. told ≡ LiveFault.NoRoom) fault result }
{
    let Worker { pass, task, .. } = worker;
    back.passes.push_reserved(pass);
    match collect(second, task, back) {
        Ok(()) => fault,
        Err(room) => fault.or(Some(room)),
    }
}

// Lets a worker finish, unless there is a fault. Returns that fault, or the worker's, which the worker keeps.
fn finish<W: Wait>(
    rt: &W,
    alloc: Global,
    desks: &Desks<Desk<Box<Store>>>,
    worker: &mut StoreWorker,
    fault: Option<LiveFault>,
) -> Option<LiveFault>
    requires { IsOf (home_of desks.now.first) (home_of desks.now.second) worker.old }
    ensures back { ComesBack worker.old worker.new }
    ensures kept { IfSome fault (λ was. result ≡ Some was) }
    ensures done { IfNone result (Finishes (plain worker.old) (plain worker.new)) }
    ensures left { IsLeft fault (plain worker.old) (plain worker.new) }
    ensures own { KeepsOwn fault result worker.old.fault worker.new.fault }
{
    if fault.is_some() {
        return fault;
    }
    match worker.finish(rt, alloc, &desks.first, &desks.second) {
        Ok(()) => None,
        Err(fault) => {
            worker.fault = Some(fault);
            own_fault(worker.fault)
        }
    }
}

// Takes back what a task has: a pass of the second desk, or a follower. If memory runs out for a follower, it is dropped.
fn collect(
    second: &Desk<Box<Store>>,
    task: Task<Pass<Box<Store>>>,
    back: &mut Back<Pass<Box<Store>>>,
) -> Result<(), LiveFault>
    requires task { IsOther (home_of second.now) task }
    requires others { All (λ p. IsAtHome (home_of second.now) p) back.old.others.items }
    requires room { others_in task + length back.old.others.items ≤ vec_capacity back.old.others }
    ensures home { All (λ p. IsAtHome (home_of second.now) p) back.new.others.items }
    ensures all { length back.new.others.items ≡ others_in task + length back.old.others.items }
    ensures room { vec_capacity back.new.others ≡ vec_capacity back.old.others }
    ensures passes { back.new.passes ≡ back.old.passes }
    ensures others { back.new.others.items ≡ back.old.others.items ++ passes_in task }
    ensures followers { OnOk result (back.new.followers.items ≡ back.old.followers.items ++ followers_in task) }
    ensures cause { IfErr result (λ fault. fault ≡ LiveFault.NoRoom) }
{
    match task {
        Task::Publish => Ok(()),
        Task::Follow(follower) => match back.followers.push(follower) {
            Ok(()) => Ok(()),
            Err(_) => Err(LiveFault::NoRoom),
        },
        Task::Exchange { other, .. } => {
            back.others.push_reserved(other);
            Ok(())
        }
    }
}
