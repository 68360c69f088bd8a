//! A thread's job.

/// The work of one thread, with all that it needs. The work checks the run's `GivenUp` before each turn, and ends early once the run
/// is given up.
pub trait Job {
    // The condition under which a job may run.
    ghost can_run: { Self → Type 0 };

    // Whether the second job is the first one after its work, which is done or was given up.
    ghost comes_back: { Self → Self → Type 0 };

    /// Does the work, and hands the job back.
    fn run(self) -> Self
        requires { can_run self }
        ensures { comes_back self result };
}
