//! Runs of threads at gates.

use crate::hold::Hold;
use crate::shut::Shut;
use ds_live::{Gate, OpenGate, Sizes, live_run};
use std::alloc::Global;
use std::rt::Runtime;
use std::sync::Wait;
use std::thread::Threads;
use test_kit::Failure;

/// Makes all runs, and prints their results.
pub(crate) fn run_at_gates<R: Runtime + Threads + Wait + Sync>(
    rt: &R,
    alloc: Global,
) -> Result<(), Failure> {
    one_waits_for_another(rt, alloc)?;
    some_are_turned_away(rt, alloc)?;
    some_sizes_are_none(rt, alloc)
}

// Holds publisher 0 until publisher 1 has had an answer, and in another run the other way round. So both are at work at once.
fn one_waits_for_another<R: Runtime + Threads + Wait + Sync>(
    rt: &R,
    alloc: Global,
) -> Result<(), Failure> {
    let sizes = sizes(2, 2, 3);
    tell_run(rt, alloc, &Hold::new(0, 1), sizes)?;
    tell_run(rt, alloc, &Hold::new(1, 0), sizes)
}

// Turns each worker away before its first turn, and in another run only the last worker, after its last turn.
fn some_are_turned_away<R: Runtime + Threads + Wait + Sync>(
    rt: &R,
    alloc: Global,
) -> Result<(), Failure> {
    let sizes = sizes(1, 1, 1);
    tell_run(rt, alloc, &Shut { from: 0, turn: 0 }, sizes)?;
    tell_run(rt, alloc, &Shut { from: 2, turn: 1 }, sizes)?;
    tell_run(rt, alloc, &Shut { from: 3, turn: 0 }, sizes)
}

// Tries each size below its range, and above it.
fn some_sizes_are_none<R: Runtime + Threads + Wait + Sync>(
    rt: &R,
    alloc: Global,
) -> Result<(), Failure> {
    let none = [
        sizes(0, 1, 1),
        sizes(9, 1, 1),
        sizes(1, 0, 1),
        sizes(1, 9, 1),
        sizes(1, 1, 0),
        sizes(1, 1, 1001),
    ];
    for index in 0..none.len() {
        tell_run(rt, alloc, &OpenGate, none[index])?;
    }
    Ok(())
}

fn sizes(publishers: u32, subscribers: u32, changes: u32) -> Sizes {
    Sizes {
        publishers,
        subscribers,
        changes,
    }
}

// Prints the report of a run at a gate, or why the run failed.
fn tell_run<R: Runtime + Threads + Wait + Sync, G: Gate + Sync>(
    rt: &R,
    alloc: Global,
    gate: &G,
    sizes: Sizes,
) -> Result<(), Failure> {
    match live_run(rt, alloc, gate, sizes) {
        Ok(run) => {
            let report = run.report;
            println!(rt; "{report:?}")?
        }
        Err(fault) => println!(rt; "{fault:?}")?,
    }
    Ok(())
}
