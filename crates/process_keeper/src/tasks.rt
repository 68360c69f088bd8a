//! The next task of one label.

ghost use Rattle.std.specs.Prelude.{◌≡◌, true, Some};
ghost use Rattle.process_keeper.specs.Doing.{MayDo, RestsSettled};
ghost use Rattle.process_keeper.specs.Order.{IsCalmAt, IsSettledAt};

use crate::instance::Instance;
use crate::lifecycle::Lifecycle;
use crate::task::Task;

impl Lifecycle {
    // Returns what is to be done now.
    pub(crate) fn task(&self, now: u64) -> Task
        ensures may { MayDo self.now now result }
        ensures rest { RestsSettled self.now now result }
        ensures settled { IsSettledAt self.now now result }
        ensures calm { IsCalmAt self.now now result }
    {
        if !self.is_clean {
            return if self.is_scanned {
                Task::Rest
            } else {
                Task::Clear
            };
        }
        match self.instance {
            Some(instance) => match instance.deadline {
                None => {
                    if self.has_exited {
                        Task::Report(instance.generation)
                    } else {
                        Task::Rest
                    }
                }
                Some(at) => self.ending_task(instance, at, now),
            },
            None => match self.pending {
                Some(generation) => {
                    if self.retry_at <= now {
                        Task::Fork(generation)
                    } else {
                        Task::Rest
                    }
                }
                None => Task::Rest,
            },
        }
    }

    // Returns what is to be done about the label's instance, which has this deadline.
    fn ending_task(&self, instance: Instance, at: u64, now: u64) -> Task
        requires clean { self.now.is_clean ≡ true }
        requires instance { self.now.instance ≡ Some instance }
        requires deadline { instance.deadline ≡ Some at }
        ensures may { MayDo self.now now result }
        ensures rest { RestsSettled self.now now result }
        ensures settled { IsSettledAt self.now now result }
        ensures calm { IsCalmAt self.now now result }
    {
        if self.has_exited && self.is_scanned && self.is_empty {
            Task::Reap(instance.leader)
        } else if !self.is_asked {
            Task::Ask(instance.leader)
        } else if at <= now && !self.is_killed {
            Task::Kill(instance.leader)
        } else if self.has_exited && !self.is_scanned {
            Task::Scan(instance.leader)
        } else {
            Task::Rest
        }
    }
}
