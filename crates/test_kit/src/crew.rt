//! Threads at one desk.

ghost use Rattle.std.specs.Prelude.{All, ◌≡◌, IfSome};
ghost use Rattle.std.specs.List.{AllByRecursion};
ghost use Rattle.desk.specs.Desk.{identity};
ghost use Rattle.desk.specs.Pass.{desk_of};

use crate::board::{Board, DeskName};
use crate::task::Task;
use crate::worker::{Said, Worker};
use desk::{Account, Desk, Pass, Passes};
use history::Machine;
use std::alloc::Global;
use std::marker::Brand;
use std::sync::{Mutex, Wait};
use std::thread::{Threads, map_vec};

/// The answers and counts of the threads, and what was left of the desk.
#[derive(Drop)]
pub struct Crew<M> {
    /// Every call, in the order of its place.
    pub said: Vec<Said>,
    /// How many bits the threads counted as raised.
    pub raises: u64,
    /// How many bits they counted as taken.
    pub takes: u64,
    /// Whether a thread ever looked less far than the thread whose note it had learnt.
    pub behind: bool,
    /// The account of the desk.
    pub account: Account,
    /// The machine that the desk returned.
    pub machine: M,
}

/// Opens a desk over the machine, runs the task on `threads` threads, and closes the desk. `None`: out of memory, or
/// not 1 to 64 threads.
pub fn run_crew<M, T, R>(
    rt: &R,
    alloc: Global,
    machine: M,
    threads: u32,
    task: T,
) -> Option<Crew<M>>
where
    M: Machine + Send + Drop,
    M::Command: Drop + Send,
    M::Reply: Drop + Send,
    T: Task<M> + Sync + Drop,
    R: Threads + Wait + Sync,
{
    let Ok((desk, passes)) = Desk::<M>::open(alloc, machine, threads, 0) else {
        return None;
    };
    let workers = run_threads::<M, T, R, Brand>(rt, alloc, &desk, passes, &task)?;
    close_crew(alloc, desk, workers)
}

// Runs the task with each pass, on a thread of its own where one can be made. They share one board for notes.
fn run_threads<M, T, R, D>(
    rt: &R,
    alloc: Global,
    desk: &Desk<M>,
    passes: Passes<M>,
    task: &T,
) -> Option<Vec<Worker<Pass<M>>>>
where
    M: Machine + Send + Drop,
    M::Command: Drop + Send,
    M::Reply: Drop + Send,
    T: Task<M> + Sync,
    R: Threads + Wait + Sync,
    D: DeskName + Send + Sync,
    requires named { identity desk.now ≡ D.table }
    requires passes { AllByRecursion (λ p. desk_of p ≡ identity desk.now) passes }
    ensures { IfSome result (λ ws. All (λ w. desk_of w.pass ≡ identity desk.now) ws.items) }
{
    let board: Board<M, D> = Mutex::new(None);
    let shared = &board;
    let each = move |pass: Pass<M>| -> Worker<Pass<M>>
        requires { (desk_of pass ≡ identity desk.now) × (identity desk.now ≡ D.table) }
        ensures { desk_of result.pass ≡ identity desk.entry.now }
    {
        let mut worker = Worker::new(alloc, pass);
        let done = task.work(rt, alloc, desk, shared, &mut worker);
        worker.done = done.is_some();
        worker
    };
    match map_vec(rt, passes.into_vec(), &each) {
        Ok(workers) => Some(workers),
        Err(_) => None,
    }
}

// Takes the passes back, adds up the threads' counts, and closes the desk.
fn close_crew<M>(alloc: Global, desk: Desk<M>, mut workers: Vec<Worker<Pass<M>>>) -> Option<Crew<M>>
where
    M: Machine + Drop,
    M::Command: Drop,
    M::Reply: Drop,
    requires { All (λ w. desk_of w.pass ≡ identity desk) workers.items }
{
    let mut passes = Passes::<M>::new(alloc);
    let mut said = Vec::new(alloc);
    let mut raises = 0u64;
    let mut takes = 0u64;
    let mut any_behind = false;
    while let Some(worker) = workers.pop() {
        let Worker {
            pass,
            said: calls,
            raises: raised,
            takes: taken,
            done,
            behind,
        } = worker;
        if !done || said.extend_from_slice(&calls).is_err() {
            return None;
        }
        raises = raises.wrapping_add(raised);
        takes = takes.wrapping_add(taken);
        any_behind |= behind;
        let Ok(()) = passes.push(pass) else {
            return None;
        };
    }
    let closed = desk.close(alloc, passes).ok()?;
    said.sort_unstable_by_key(|one| one.place);
    Some(Crew {
        said,
        raises,
        takes,
        behind: any_behind,
        machine: closed.machine,
        account: closed.account,
    })
}
