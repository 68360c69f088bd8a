//! A run of many jobs.

ghost use Rattle.std.specs.Prelude.{All, ◌≡◌, ◌<◌, length, vec_capacity, IfOk, IfErr, IfNone, IfSome};
ghost use Rattle.ds_live.specs.Back.{AreBack};

use crate::given_up::GivenUp;
use crate::job::Job;
use std::snapshot::Snapshot;
use std::sync::Wait;
use std::thread;
use std::thread::{Promise, Scope, Threads};

/// The error of a run that was given up because no thread could be made for the job at `place`. The jobs before that place weren't
/// started, and are unchanged.
#[derive(Drop)]
pub struct NoThread<J> {
    /// All jobs, each at its place.
    pub jobs: Vec<J>,
    /// The index of the job that got no thread.
    pub place: usize,
}

// The contract of a thread's closure: its job comes back.
#[derive(Drop)]
struct Back<J>(Snapshot<J>);

impl<J: Job> Promise<J> for Back<J> {
    ghost kept_by = { λ p j. J.comes_back p.0.value j };
}

/// Runs each job in a thread of its own, the last of the list first, and joins all threads. Each job comes back to its place in the list.
/// Only the threads themselves take memory. If a thread can't be made, no further job is started, and the running jobs end early.
pub fn run_all<'e, R: Threads + Wait, J: Job + Send + Drop + 'e>(
    rt: &R,
    given_up: &GivenUp,
    mut jobs: Vec<J>,
) -> Result<Vec<J>, NoThread<J>>
    requires { All J.can_run jobs.items }
    ensures ran { IfOk result (λ js. AreBack J.comes_back 0 jobs.items js.items) }
    ensures refused { IfErr result (λ n. AreBack J.comes_back n.place jobs.items n.jobs.items) }
    ensures place { IfErr result (λ n. n.place < length jobs.items) }
{
    thread::scope(
        thread::scope_env(),
        rt,
        move |scope| -> Result<Vec<J>, NoThread<J>>
            requires { All J.can_run jobs.items }
            ensures ran { IfOk result (λ js. AreBack J.comes_back 0 jobs.items js.items) }
            ensures refused { IfErr result (λ n. AreBack J.comes_back n.place jobs.items n.jobs.items) }
            ensures place { IfErr result (λ n. n.place < length jobs.items) }
        {
            match start(scope, rt, given_up, &mut jobs) {
                None => Ok(jobs),
                Some(place) => Err(NoThread { jobs, place }),
            }
        },
    )
}

// Starts the last job in a thread, then the others, then joins its thread and puts it back at its place. Returns the place of the job
// for which no thread could be made, if any.
fn start<'s, 'e: 's, R: Threads + Wait, J: Job + Send + Drop + 'e>(
    scope: &'s Scope<'s, &'e ()>,
    rt: &R,
    given_up: &GivenUp,
    jobs: &mut Vec<J>,
) -> Option<usize>
    requires { All J.can_run jobs.old.items }
    ensures ran { IfNone result (AreBack J.comes_back 0 jobs.old.items jobs.new.items) }
    ensures refused { IfSome result (λ n. AreBack J.comes_back n jobs.old.items jobs.new.items) }
    ensures place { IfSome result (λ n. n < length jobs.old.items) }
    ensures room { vec_capacity jobs.new ≡ vec_capacity jobs.old }
{
    let Some(job) = jobs.pop() else {
        return None;
    };
    let back = Back(Snapshot::of(&job));
    let work = move || -> J
        requires { J.can_run job }
        ensures { J.comes_back job result }
    { job.run() };
    match scope.spawn_with(back, work) {
        Ok(child) => {
            let refused = start(scope, rt, given_up, jobs);
            jobs.push_reserved(child.join(rt));
            refused
        }
        Err(refused) => {
            // The closure of a thread that can't be made hands its job back.
            given_up.tell();
            let job = (refused.value)();
            let place = jobs.len();
            jobs.push_reserved(job);
            Some(place)
        }
    }
}
