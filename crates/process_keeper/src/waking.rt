//! When there is a task without an input.

ghost use Rattle.std.specs.Prelude.{◌≡◌, ◌<◌, ℕ};
ghost use Rattle.std.specs.List.{All};
ghost use Rattle.process_keeper.specs.Doing.{IsSettled};
ghost use Rattle.process_keeper.specs.Waking.{due_at, fork_at, if_later, kill_at, wakes_at};

use crate::keeper::Keeper;
use crate::lifecycle::Lifecycle;

const NEVER: u64 = u64::MAX;

impl Keeper {
    /// Returns the first time after this one at which a start is tried again or a grace period is over, or the greatest number. Labels
    /// that are settled now are settled until then, if they take no input.
    pub fn due(&self, now: u64) -> u64
        ensures first { result ≡ due_at self.now.labels.items now }
        ensures rest { (t : ℕ) → t < result → All (λ p. IsSettled p now) self.now.labels.items →
            All (λ p. IsSettled p t) self.now.labels.items }
    {
        self.first_due(now)
    }

    // Returns the first time of all labels.
    fn first_due(&self, now: u64) -> u64
        ensures { result ≡ due_at self.now.labels.items now }
    {
        let mut due = NEVER;
        for label in &self.labels {
            due = due.min(label.wakes_at(now));
        }
        due
    }
}

impl Lifecycle {
    // Returns when the label may have a task that it hasn't now.
    fn wakes_at(&self, now: u64) -> u64
        ensures { result ≡ wakes_at self.now now }
    {
        match self.instance {
            Some(instance) => kill_at(instance.deadline, self.is_killed, now),
            None => fork_at(self.pending, self.retry_at, now),
        }
    }
}

// Returns the deadline, unless it passed or SIGKILL was sent.
fn kill_at(deadline: Option<u64>, is_killed: bool, now: u64) -> u64
    ensures { result ≡ kill_at deadline is_killed now }
{
    match deadline {
        Some(at) => { if is_killed { NEVER } else { if_later(now, at) } }
        None => NEVER,
    }
}

// Returns when a pending start is tried next.
fn fork_at(pending: Option<u64>, at: u64, now: u64) -> u64
    ensures { result ≡ fork_at pending at now }
{
    match pending {
        Some(_) => if_later(now, at),
        None => NEVER,
    }
}

fn if_later(now: u64, at: u64) -> u64
    ensures { result ≡ if_later now at }
{
    if now < at { at } else { NEVER }
}
