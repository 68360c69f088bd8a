//! The threads of all workers.

ghost use Rattle.std.specs.Prelude.{All, ◌≡◌, map, true, None, IfNone};
ghost use Rattle.std.specs.List.{list_all};
ghost use Rattle.ds_live.specs.Back.{AreBack};
ghost use Rattle.ds_live.specs.Homes.{home_of};
ghost use Rattle.ds_live.specs.Workers.{ComesBack, IsOf, StopsTurns, TookAll, plain};
ghost use Rattle.ds_live.specs.Faults.{HasWorkersFault, has_ended, lowest_fault, own_fault};

use crate::crew::run_all;
use crate::gate::Gate;
use crate::given_up::GivenUp;
use crate::live_fault::LiveFault;
use crate::turns::StoreTurns;
use crate::worker_fault::WorkerFault;
use std::sync::Wait;
use std::thread::Threads;

/// Runs all jobs, and returns them with the fault of the run, if any: that of the lowest worker that failed, else NoThread if a thread
/// couldn't be made or a worker gave up. Without a fault each worker took all of its turns.
pub(crate) fn work_all<'e, R: Threads + Wait + Sync, G: Gate + Sync>(
    rt: &'e R,
    given_up: &'e GivenUp,
    jobs: Vec<StoreTurns<'e, R, G>>,
) -> (Vec<StoreTurns<'e, R, G>>, Option<LiveFault>)
    requires of_desks { All (λ j. IsOf (home_of j.desks.now.first) (home_of j.desks.now.second) j.worker) jobs.items }
    ensures back { AreBack (λ j k. ComesBack j.worker k.worker) 0 jobs.entry.items result.0.items }
    ensures took { IfNone result.1
        (AreBack (λ j k. TookAll (G.answers j.gate.now) (plain j.worker) (plain k.worker)) 0 jobs.entry.items result.0.items) }
    ensures fault { HasWorkersFault (map (λ j. j.worker.fault) result.0.items) result.1 }
    ensures stopped { AreBack (λ j k. StopsTurns (G.answers j.gate.now) (plain j.worker) (plain k.worker))
        0 jobs.entry.items result.0.items }
    ensures idle { IfNone result.1 (All (λ j. j.worker.fault ≡ None) result.0.items) }
{
    match run_all(rt, given_up, jobs) {
        Ok(jobs) => {
            let fault = fault_of(&jobs);
            (jobs, fault)
        }
        Err(refused) => {
            let fault = find_fault(&refused.jobs);
            (refused.jobs, fault.or(Some(LiveFault::NoThread)))
        }
    }
}

// Returns the fault of the lowest worker that failed, or NoThread if a worker ended early without one.
fn fault_of<R, G>(jobs: &Vec<StoreTurns<'_, R, G>>) -> Option<LiveFault>
    ensures fault { HasWorkersFault (map (λ j. j.worker.fault) jobs.now.items) result }
    ensures none { IfNone result (list_all (λ j. has_ended j.worker.fault) jobs.now.items ≡ true) }
{
    if let Some(fault) = find_fault(jobs) {
        return Some(fault);
    }
    if have_ended(jobs) {
        None
    } else {
        Some(LiveFault::NoThread)
    }
}

// Returns the fault of the lowest worker that failed. The last job is worker 0's.
fn find_fault<R, G>(jobs: &Vec<StoreTurns<'_, R, G>>) -> Option<LiveFault>
    ensures { result ≡ lowest_fault (map (λ j. j.worker.fault) jobs.now.items) }
{
    let mut lowest = None;
    for place in 0..jobs.len() {
        if let Some(fault) = own_fault(jobs[place].worker.fault) {
            lowest = Some(fault);
        }
    }
    lowest
}

// Returns whether each worker took all of its turns.
fn have_ended<R, G>(jobs: &Vec<StoreTurns<'_, R, G>>) -> bool
    ensures { result ≡ list_all (λ j. has_ended j.worker.fault) jobs.now.items }
{
    for place in 0..jobs.len() {
        let ended = has_ended(jobs[place].worker.fault);
        if !ended {
            return false;
        }
    }
    true
}

/// Returns the fault of a worker that failed. A worker ends without one if the run was given up.
pub(crate) fn own_fault(fault: Option<WorkerFault>) -> Option<LiveFault>
    ensures { result ≡ own_fault fault }
{
    match fault {
        None => None,
        Some(WorkerFault::Call(fault)) => Some(LiveFault::from(fault)),
        Some(WorkerFault::Refresh(fault)) => Some(LiveFault::from(fault)),
        Some(WorkerFault::Exchange(fault)) => Some(LiveFault::from(fault)),
        Some(WorkerFault::GateShut) => Some(LiveFault::GateShut),
        Some(WorkerFault::GivenUp(_)) => None,
    }
}

fn has_ended(fault: Option<WorkerFault>) -> bool
    ensures { result ≡ has_ended fault }
{
    match fault {
        None => true,
        Some(_) => false,
    }
}
