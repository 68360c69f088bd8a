//! All labels of a supervisor.

ghost use Rattle.std.specs.Prelude.{◌≡◌, ◌<◌, ◌≤◌, Some, length, IfOk, OnErr};
ghost use Rattle.std.specs.List.{All};
ghost use Rattle.process_rule.specs.Supervisor.{new_service};
ghost use Rattle.process_keeper.specs.Sight.{service};
ghost use Rattle.process_keeper.specs.Following.{FollowsAt};
ghost use Rattle.process_keeper.specs.Order.{TakesAt};

use crate::input::Input;
use crate::lifecycle::Lifecycle;
use std::alloc::{AllocError, Global};

/// The labels of a supervisor, by their numbers from 0, and the generations of its starts.
#[derive(Drop)]
pub struct Keeper {
    pub(crate) labels: Vec<Lifecycle>,
    /// The generation of the next start.
    pub(crate) next: u64,
    /// The generation from which the next run continues, as the file has it.
    pub(crate) file: u64,
    ghost given_is_written: { next ≤ file },
}

impl Keeper {
    /// Returns a keeper of `count` labels, for a run that begins with the generation that the file has. Takes no memory for none.
    pub fn new(alloc: Global, count: usize, file: u64) -> Result<Keeper, AllocError>
        ensures count { IfOk result (λ keeper. length keeper.labels.items ≡ count) }
        ensures services { IfOk result (λ keeper. All (λ p. service p ≡ new_service) keeper.labels.items) }
        ensures room { OnErr result (0 < count) }
        ensures next { IfOk result (λ keeper. (keeper.next ≡ file) × (keeper.file ≡ file)) }
    {
        let mut labels = Vec::new(alloc);
        for _k in 0..count {
            labels.push(Lifecycle::new())?;
        }
        Ok(Keeper {
            labels,
            next: file,
            file,
        })
    }

    /// Has a label take an input. Returns whether it was accepted; if not, nothing changes. There is no label past the last one.
    ///
    /// A start is refused beside another one or an instance that is up; a stop, if none is up; a leader, before the last instance is
    /// reaped and leftovers are gone; a report, before the leader exited; a reaping, before a later scan found nothing else.
    pub fn take(&mut self, label: usize, input: Input) -> bool
        ensures taken { TakesAt self.old.labels.items label input result self.new.labels.items }
        ensures generations { (self.new.next ≡ self.old.next) × (self.new.file ≡ self.old.file) }
    {
        if label >= self.labels.len() {
            return false;
        }
        if !self.labels[label].accepts(input) {
            return false;
        }
        self.labels[label].apply(input);
        true
    }

    /// Has a label run this generation, or nothing, as RS wants. Nothing changes if it is to do so already. Otherwise its pending start is
    /// taken back, an instance that is up gets the deadline, and the generation is started. Returns whether there is such a label.
    pub fn follow(&mut self, label: usize, generation: Option<u64>, deadline: u64) -> bool
        ensures followed { FollowsAt self.old.labels.items label generation deadline result self.new.labels.items }
        ensures generations { (self.new.next ≡ self.old.next) × (self.new.file ≡ self.old.file) }
    {
        if label >= self.labels.len() {
            return false;
        }
        self.labels[label].follow(generation, deadline);
        true
    }
}
