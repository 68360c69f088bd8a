//! Plans: what RS does at an event, found before anything changes.

ghost use Rattle.std.specs.Prelude.{◌≡◌};
ghost use Rattle.rs_core.specs.Planning.{acts, starts_instance};

use crate::deed::Task;
use crate::judging::{has_actions, takes_generation};

/// What RS does at an event that no fault refuses, and its tick. `Rs::plan` makes a plan, and `Rs::carry_out` carries it
/// out.
///
/// A plan fits the state of RS that it was made for, until the next event or renewal.
#[derive(Clone, Copy)]
pub struct Plan {
    pub(crate) tick: u64,
    // `None` if only the tick changes.
    pub(crate) task: Option<Task>,
}

impl Plan {
    /// Returns whether the plan has actions. `Rs::carry_out` takes memory only then.
    pub fn acts(&self) -> bool
        ensures { result ≡ acts self.now }
    {
        match &self.task {
            Some(task) => has_actions(task.deed),
            None => false,
        }
    }

    /// Returns whether the plan starts an instance, and so takes the next generation.
    pub fn starts(&self) -> bool
        ensures { result ≡ starts_instance self.now }
    {
        match &self.task {
            Some(task) => takes_generation(task.deed),
            None => false,
        }
    }
}
