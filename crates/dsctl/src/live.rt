//! Threads that publish, follow and exchange.

use crate::watch::Watch;
use ds_live::{LiveFault, LiveReport, Sizes, live_run};
use dsctl_cli::{Crew, Failure, Terminals};
use std::process::ExitCode;
use std::rt::Runtime;
use std::sync::Wait;
use std::thread::Threads;
use std::time::Duration;

/// For how many milliseconds nothing is shown, and how many are between two showings.
const STEP: u64 = 1000;

/// Runs the publishers and subscribers, once or for some seconds, and prints a report. Shows turns at a terminal.
pub(crate) fn run<R: Runtime + AllocGlobal + Threads + Wait + Sync>(
    rt: &R,
    terminals: Terminals,
    crew: Crew,
) -> Result<ExitCode, Failure> {
    match run_again(rt, terminals, crew) {
        Ok(report) => tell(rt, &report),
        Err(fault) => Err(failure_of(fault)),
    }
}

// Repeats runs until the time is over, and returns the report on all.
fn run_again<R: Runtime + AllocGlobal + Threads + Wait + Sync>(
    rt: &R,
    terminals: Terminals,
    crew: Crew,
) -> Result<LiveReport, LiveFault> {
    let gate = Watch::new(crew.seed);
    let begun = now(rt);
    let most = (crew.seconds.unwrap_or(0) as u64).saturating_mul(1000);
    let mut shown = 0;
    let mut report = live_run(rt, rt.alloc(), &gate, sizes_of(crew))?.report;
    for _again in 0..u64::MAX {
        let passed = now(rt).saturating_sub(begun);
        if passed >= most {
            break;
        }
        if terminals.error && passed.saturating_sub(shown) >= STEP {
            show(rt, gate.turns(), passed);
            shown = passed;
        }
        let again = live_run(rt, rt.alloc(), &gate, sizes_of(crew))?;
        report = joined(&report, again.report);
    }
    if shown > 0 {
        let _ = rt.eprintln("");
    }
    Ok(report)
}

// The time now in milliseconds, or 0 if there is no clock.
fn now(rt: &impl Runtime) -> u64 {
    let time = rt.monotonic().unwrap_or(Duration::ZERO);
    time.as_secs()
        .saturating_mul(1000)
        .saturating_add(time.subsec_millis() as u64)
}

// Shows the turns at a terminal, in place of those that were shown before.
fn show(rt: &impl Runtime, turns: u64, passed: u64) {
    let seconds = passed / 1000;
    let _ = eprint!(rt; "\rdsctl: {turns} turns in {seconds} s");
}

fn sizes_of(crew: Crew) -> Sizes {
    Sizes {
        publishers: crew.publishers,
        subscribers: crew.subscribers,
        changes: crew.changes,
    }
}

// Returns the report on two runs: what is true after both.
fn joined(one: &LiveReport, other: LiveReport) -> LiveReport {
    LiveReport {
        entries: other.entries,
        maps: one.maps && other.maps,
        replicas: one.replicas && other.replicas,
        account: one.account && other.account,
    }
}

// Prints the four lines of a report.
fn tell(rt: &impl Runtime, report: &LiveReport) -> Result<ExitCode, Failure> {
    let entries = report.entries;
    let maps = comparison(report.maps);
    let replicas = comparison(report.replicas);
    let account = if report.account { "exact" } else { "wrong" };
    let printed = println!(rt;
        "entries {entries}\nmaps {maps}\nreplicas {replicas}\naccount {account}"
    );
    match printed {
        Ok(()) => Ok(ExitCode::SUCCESS),
        Err(error) => Err(Failure::WriteFault(Some(error))),
    }
}

fn comparison(are_equal: bool) -> &'static str {
    if are_equal { "equal" } else { "differ" }
}

fn failure_of(fault: LiveFault) -> Failure {
    match fault {
        LiveFault::NoRoom => Failure::NoRoom,
        LiveFault::BadLimit => Failure::Live("badlimit"),
        LiveFault::BadSizes => Failure::Live("badsizes"),
        LiveFault::Desk(_) => Failure::Live("desk"),
        LiveFault::Refused(_) => Failure::Live("refused"),
        LiveFault::Stopped { .. } => Failure::Live("stopped"),
        LiveFault::GateShut => Failure::Live("gateshut"),
        LiveFault::NoThread => Failure::Live("nothread"),
    }
}
