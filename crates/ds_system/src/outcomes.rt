//! Lists of outcomes.

ghost use Rattle.std.specs.Prelude.{◌≡◌, ◌≢◌, ◌++◌, ◌∷◌, [], length, slice_get, OnOk, IfErr, OnErr, IfOk};
ghost use Rattle.std.specs.Option.{option_copied};

use crate::outcome::SystemOutcome;
use ds_names::NoRoom;
use std::alloc::{AllocFailed, Global};
use std::marker::Model;

/// The outcomes of a system's events, in order.
#[derive(Drop)]
pub struct SystemOutcomes {
    outcomes: Vec<SystemOutcome>,
}

impl Model for SystemOutcomes {
    ghost use Rattle.std.specs.Prelude.{List};
    ghost use Rattle.ds_system.specs.declared.outcome.SystemOutcome.{SystemOutcome};

    ghost Value = { List SystemOutcome };

    ghost view = { λ o. o.outcomes.items };
}

impl SystemOutcomes {
    /// Returns an empty list. It takes no memory.
    pub fn new(alloc: Global) -> SystemOutcomes
        ensures { result ≡ [] }
    {
        SystemOutcomes {
            outcomes: Vec::new(alloc),
        }
    }

    /// Wraps a `Vec`, and takes no memory.
    pub(crate) fn of(outcomes: Vec<SystemOutcome>) -> SystemOutcomes
        ensures { result ≡ outcomes.items }
    {
        SystemOutcomes { outcomes }
    }

    /// Appends an outcome. If memory runs out, the list is unchanged and the error hands the outcome back.
    pub fn push(&mut self, outcome: SystemOutcome) -> Result<(), AllocFailed<SystemOutcome>>
        ensures ok { OnOk result (self.new ≡ self.old ++ outcome ∷ []) }
        ensures err { OnErr result (self.new ≡ self.old) }
        ensures back { IfErr result (λ back. back.value ≡ outcome) }
    {
        self.outcomes.push(outcome)
    }

    /// Returns the number of outcomes.
    pub fn len(&self) -> usize
        ensures { result ≡ length self.now }
    {
        self.outcomes.len()
    }

    /// Returns the outcome at an index from 0; `None` past the end.
    pub fn get(&self, index: usize) -> Option<&SystemOutcome>
        ensures { option_copied result ≡ slice_get self.now index }
    {
        self.outcomes.get(index)
    }

    /// Returns a copy. A copy of no outcomes takes no memory.
    pub fn copy(&self, alloc: Global) -> Result<SystemOutcomes, NoRoom>
        ensures same { IfOk result (λ copy. copy ≡ self.now) }
        ensures room { OnErr result (self.now ≢ []) }
    {
        let mut outcomes = Vec::new(alloc);
        for outcome in &self.outcomes {
            outcomes.push(outcome.copy(alloc)?)?;
        }
        Ok(SystemOutcomes { outcomes })
    }
}
