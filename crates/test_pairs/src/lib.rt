//! A section of the program for tests: threads that share RS and its store at a desk.
//!
//! Each line is one test. The output doesn't depend on the order of the threads' turns.
//! - `CALLERS FOLLOWERS CALLS`, 1 to 64 threads in all: RS begins, and each caller makes CALLS calls. It starts, stops and kills services,
//!   lets ticks pass and beats, and publishes and reads as a service. Each follower is refreshed as often. Then RS and a store of one
//!   thread get the callers' calls in the order of their places. Every reply is compared with theirs, and each map with the store at the
//!   map's place. Without followers, the subscriptions that are owed a notice, and stamps, are compared too.
//! - `notice`: one pass follows labels, and RS starts a service and restarts it by another pass. The output has what each of them learns.
//! - `exchange`: RS's store, a copy of it at a desk of another pair, and a store at its own desk exchange while RS restarts a service. The
//!   output has the result of each exchange.
#![tactic(auto)]

mod asked;
mod exchange;
mod line;
mod mark;
mod new_pair;
mod notice;
mod review;
mod watch;

use exchange::exchange_stores;
use line::{Line, Sizes, read_line};
use notice::notice_labels;
use review::share_and_compare;
use std::sync::Wait;
use std::thread::Threads;
use test_kit::Failure;

/// Answers the lines in order, up to the first one that can't be read.
pub fn answer<R: Print + AllocGlobal + Threads + Wait + Sync>(
    rt: &R,
    lines: &str,
) -> Result<(), Failure> {
    for line in lines.lines() {
        let asked = read_line(line).ok_or(Failure::BadLine)?;
        match asked {
            Line::Share(sizes) => share(rt, sizes)?,
            Line::Notice => notice_labels(rt, rt.alloc())?,
            Line::Exchange => exchange_stores(rt, rt.alloc())?,
        }
    }
    Ok(())
}

// Runs threads that share RS and its store, and prints how they compare with one thread.
fn share<R: Print + AllocGlobal + Threads + Wait + Sync>(
    rt: &R,
    sizes: Sizes,
) -> Result<(), Failure> {
    let review = share_and_compare(rt, rt.alloc(), sizes).ok_or(Failure::NoRoom)?;
    let calls = review.calls;
    let verdict = review.verdict();
    println!(rt; "calls {calls} {verdict}")?;
    Ok(())
}
