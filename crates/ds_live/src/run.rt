//! A run of threads.

ghost use Rattle.std.specs.Prelude.{◌≡◌, ◌⊎◌, Err, true, false, IfErr, IfOk, IfSome, OnOk, IsTrue};
ghost use Rattle.std.specs.declared.option.Option.TheVariants.{Some};
ghost use Rattle.ds_live.specs.Fails.{IsLiveFault};
ghost use Rattle.ds_live.specs.Report.{IsExactAccount, IsReport};
ghost use Rattle.ds_live.specs.Run.{RunLeaves};
ghost use Rattle.ds_live.specs.Sizes.{are_fit};

use crate::back::Back;
use crate::closing::close_desk;
use crate::dismissing::dismiss;
use crate::gate::Gate;
use crate::given_up::GivenUp;
use crate::hiring::{hire, open_desk};
use crate::live_fault::LiveFault;
use crate::report::{LiveRun, report_of};
use crate::sizes::Sizes;
use crate::turns::Desks;
use crate::working::work_all;
use desk::Closed;
use desk_store::Follower;
use ds_store::Store;
use std::alloc::Global;
use std::sync::Wait;
use std::thread::Threads;

/// Runs publishers and subscribers that share a store, and a worker that sends what it holds to a second store, each in a thread of its
/// own. Then brings the subscribers' maps and the second store up to date, closes both desks, and reports what they hold.
///
/// Publishers are workers 0, 1 and so on. Then come the subscribers, then the worker that exchanges. Each worker takes `changes` turns, and
/// arrives at the gate before each turn and after the last one.
///
/// Refuses sizes out of range as BadSizes. If workers fail, returns the fault of the one with the lowest number, which is GateShut if the
/// gate turned it away. Then come NoThread if a thread couldn't be made, and NoRoom.
pub fn live_run<R: Threads + Wait + Sync, G: Gate + Sync>(
    rt: &R,
    alloc: Global,
    gate: &G,
    sizes: Sizes,
) -> Result<LiveRun, LiveFault>
    ensures fit { OnOk result (IsTrue (are_fit sizes)) }
    ensures bad_sizes { are_fit sizes ≡ false → result ≡ Err LiveFault.BadSizes }
    ensures cause { IfErr result (IsLiveFault (G.answers gate.now) sizes) }
    ensures ran { IfOk result (λ run.
        RunLeaves (G.answers gate.now) sizes run.first.machine.value run.second.machine.value run.followers.items) }
    ensures report { IfOk result (λ run.
        IsReport run.first.machine.value.held run.second.machine.value.held run.followers.items run.report) }
    ensures account { IfOk result (λ run.
        (run.report.account ≡ true) × IsExactAccount run.first.account × IsExactAccount run.second.account) }
{
    if !sizes.are_fit() {
        return Err(LiveFault::BadSizes);
    }
    run_fit(rt, alloc, gate, sizes)
}

// Like `live_run`, for sizes that fit.
fn run_fit<R: Threads + Wait + Sync, G: Gate + Sync>(
    rt: &R,
    alloc: Global,
    gate: &G,
    sizes: Sizes,
) -> Result<LiveRun, LiveFault>
    requires { IsTrue (are_fit sizes) }
    ensures cause { IfErr result (IsLiveFault (G.answers gate.now) sizes) }
    ensures ran { IfOk result (λ run.
        RunLeaves (G.answers gate.now) sizes run.first.machine.value run.second.machine.value run.followers.items) }
    ensures report { IfOk result (λ run.
        IsReport run.first.machine.value.held run.second.machine.value.held run.followers.items run.report) }
    ensures account { IfOk result (λ run.
        (run.report.account ≡ true) × IsExactAccount run.first.account × IsExactAccount run.second.account) }
{
    let (first, room, passes) = open_desk(alloc, 1, sizes.workers())?;
    let (second, other_room, others) = open_desk(alloc, 2, 1)?;
    let desks = Desks { first, second };
    let mut back = Back {
        passes,
        others,
        followers: Vec::new(alloc),
    };
    let given_up = GivenUp::new();
    let jobs = hire(rt, alloc, gate, &given_up, &desks, sizes, &mut back)?;
    let (jobs, fault) = work_all(rt, &given_up, jobs);
    let fault = dismiss(rt, alloc, &desks, jobs, fault, &mut back);
    let Desks { first, second } = desks;
    let Back {
        passes,
        others,
        followers,
    } = back;
    let first = close_desk(first, room, passes);
    let second = close_desk(second, other_room, others);
    end_run(alloc, first, second, followers, fault)
}

// Reports the two closed desks and the followers, unless there is a fault.
fn end_run(
    alloc: Global,
    first: Closed<Box<Store>>,
    second: Closed<Box<Store>>,
    followers: Vec<Follower>,
    fault: Option<LiveFault>,
) -> Result<LiveRun, LiveFault>
    requires { IsExactAccount first.account × IsExactAccount second.account }
    ensures fault { IfSome fault (λ was. result ≡ Err was) }
    ensures cause { IfErr result (λ told. (fault ≡ Some told) ⊎ (told ≡ LiveFault.NoRoom)) }
    ensures desks { IfOk result (λ run. (run.first ≡ first) × (run.second ≡ second)) }
    ensures followers { IfOk result (λ run. run.followers.items ≡ followers.items) }
    ensures report { IfOk result (λ run.
        IsReport run.first.machine.value.held run.second.machine.value.held run.followers.items run.report) }
    ensures account { IfOk result (λ run.
        (run.report.account ≡ true) × IsExactAccount run.first.account × IsExactAccount run.second.account) }
{
    if let Some(fault) = fault {
        return Err(fault);
    }
    let report = report_of(alloc, &first, &second, &followers)?;
    Ok(LiveRun {
        report,
        first,
        second,
        followers,
    })
}
