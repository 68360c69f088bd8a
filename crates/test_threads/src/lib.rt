//! A section of the program for tests: threads that follow a store while others change it, runs of threads at gates, and rows of a
//! follower and of exchanges in one thread.
//!
//! Each line is one test. The output doesn't depend on the order of the threads' turns.
//! - `WRITERS FOLLOWERS CALLS`, 1 to 64 threads in all: each writer makes CALLS calls, and each follower is refreshed as often. Each map is
//!   compared with a store that gets the history up to the map's place.
//! - `gates`: publishers, subscribers and an exchanging worker run at gates, which hold a worker or turn it away. The output is each run's
//!   report, or why it failed.
//! - `rows`: one pass refreshes a follower while another pass changes the store, and one desk's store sends its items to another's. The
//!   output has a word and a number for each result and each refusal. At the end of a row it has 1 if what was sent is what was held,
//!   else 0.
#![tactic(auto)]

mod asked;
mod closing;
mod gates;
mod hold;
mod line;
mod mark;
mod playing;
mod review;
mod rows;
mod shut;
mod steps;
mod tell;
mod watch;
mod world;

use gates::run_at_gates;
use line::{Line, Sizes, read_line};
use playing::play_rows;
use review::watch_and_compare;
use std::rt::Runtime;
use std::sync::Wait;
use std::thread::Threads;
use test_kit::Failure;

/// Answers the lines in order, up to the first one that can't be read.
pub fn answer<R: Runtime + AllocGlobal + Threads + Wait + Sync>(
    rt: &R,
    lines: &str,
) -> Result<(), Failure> {
    for line in lines.lines() {
        answer_line(rt, line)?;
    }
    Ok(())
}

// Carries out a line, and prints the result.
fn answer_line<R: Runtime + AllocGlobal + Threads + Wait + Sync>(
    rt: &R,
    line: &str,
) -> Result<(), Failure> {
    match read_line(line) {
        Some(Line::Follow(sizes)) => follow(rt, sizes),
        Some(Line::Gates) => run_at_gates(rt, rt.alloc()),
        Some(Line::Rows) => play_rows(rt, rt.alloc()),
        None => Err(Failure::BadLine),
    }
}

// Runs threads that change and follow a store, and prints how the maps compare.
fn follow<R: Runtime + AllocGlobal + Threads + Wait + Sync>(
    rt: &R,
    sizes: Sizes,
) -> Result<(), Failure> {
    let Some(review) = watch_and_compare(rt, rt.alloc(), sizes) else {
        return Err(Failure::NoRoom);
    };
    let verdict = review.verdict();
    println!(rt; "{verdict}")?;
    Ok(())
}
