//! A section of the program for tests: threads that share a counter or a data store at a desk, compared with one thread alone, and
//! two passes of one thread.
//!
//! Each line is one test. The output doesn't depend on the order of the threads' turns:
//! - `counter THREADS CALLS`, `store THREADS CALLS`: 1 to 64 threads, each in a thread of its own where one can be made, make
//!   CALLS calls of one desk. Then every reply is compared with that of a single thread's machine, which gets the calls in the order of
//!   their places, and the account of the notices with the threads' own counts.
//! - `labels COUNT`: two threads change one label each, COUNT times, and both labels of the closed desk's store are printed.
//! - `notice`, `last`, `bits`, `none`: two passes of one desk call a store (`rows`).
//! - `overwrite THREADS CALLS`, `front COUNT`, `take COUNT`, for measurements from outside: calls of a store without a comparison, and
//!   looks and takes of one pass.
#![tactic(auto)]

mod answering;
mod closing;
mod commands;
mod compared;
mod counter;
mod counter_compared;
mod followed;
mod kept;
mod labels;
mod line;
mod new_store;
mod overwrite;
mod playing;
mod refused;
mod review;
mod rounds;
mod rows;
mod share;
mod store_compared;
mod store_followed;
mod table;
mod tell;

use answering::answer_line;
use line::read_line;
use std::sync::Wait;
use std::thread::Threads;
use test_kit::Failure;

/// Answers the lines in order, up to the first one that can't be read.
pub fn answer<R: Print + AllocGlobal + Threads + Wait + Sync>(
    rt: &R,
    lines: &str,
) -> Result<(), Failure> {
    for line in lines.lines() {
        let asked = read_line(line).ok_or(Failure::BadLine)?;
        answer_line(rt, rt.alloc(), asked)?;
    }
    Ok(())
}
