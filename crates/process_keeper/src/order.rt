//! The next task of all labels.

ghost use Rattle.std.specs.Prelude.{◌≡◌, ◌+◌, ◌<◌, ◌≤◌, ℕ, List, Some, None, IfSome, IsNone, true, false};
ghost use Rattle.std.specs.List.{All};
ghost use Rattle.process_keeper.specs.Doing.{MayDo, IsSettled};
ghost use Rattle.process_keeper.specs.Order.{IsCalm, MayBeNext, IsFirst, is_rest};

use crate::keeper::Keeper;
use crate::task::Task;

impl Keeper {
    /// Returns a label's number and what is to be done about it now, never `Task::Rest`. `None`: nothing is, for any label. A start is
    /// next only if nothing else is to be done.
    pub fn task(&self, now: u64) -> Option<(usize, Task)>
        ensures may { IfSome result (λ next. MayBeNext self.now.labels.items now next) }
        ensures busy { IfSome result (λ next. is_rest next.1 ≡ false) }
        ensures order { IfSome result (λ next. IsFirst self.now.labels.items now next.1) }
        ensures rest { IsNone result → All (λ p. IsSettled p now) self.now.labels.items }
    {
        match self.urgent(now) {
            Some(next) => Some(next),
            None => self.start(now),
        }
    }

    #[tactic(auto, using(crate::proofs::Walking::urgent_is_busy))]
    fn urgent(&self, now: u64) -> Option<(usize, Task)>
        ensures may { IfSome result (λ next. MayBeNext self.now.labels.items now next) }
        ensures busy { IfSome result (λ next. is_rest next.1 ≡ false) }
        ensures order { IfSome result (λ next. IsFirst self.now.labels.items now next.1) }
        ensures rest { IsNone result → All (λ p. IsCalm p now) self.now.labels.items }
    {
        for k in 0..self.labels.len() {
            let task = self.labels[k].task(now);
            if task.is_urgent() {
                return Some((k, task));
            }
        }
        None
    }

    fn start(&self, now: u64) -> Option<(usize, Task)>
        requires { All (λ p. IsCalm p now) self.now.labels.items }
        ensures may { IfSome result (λ next. MayBeNext self.now.labels.items now next) }
        ensures busy { IfSome result (λ next. is_rest next.1 ≡ false) }
        ensures order { IfSome result (λ next. IsFirst self.now.labels.items now next.1) }
        ensures rest { IsNone result → All (λ p. IsSettled p now) self.now.labels.items }
    {
        for k in 0..self.labels.len() {
            let task = self.labels[k].task(now);
            if !task.is_rest() {
                return Some((k, task));
            }
        }
        None
    }
}
