//! Lists of outcomes.

ghost use Rattle.std.specs.Prelude.{◌≡◌, ◌≢◌, ◌++◌, ◌∷◌, [], length, slice_get, OnOk, IfErr, OnErr, IfOk};
ghost use Rattle.std.specs.Option.{option_copied};

use ds_names::NoRoom;
use ds_replica::Outcome;
use std::alloc::{AllocFailed, Global};
use std::marker::Model;

/// The outcomes of events, in order.
#[derive(Drop)]
pub struct Outcomes {
    outcomes: Vec<Outcome>,
}

impl Model for Outcomes {
    ghost use Rattle.std.specs.Prelude.{List};
    ghost use Rattle.ds_replica.specs.declared.outcome.Outcome.{Outcome};

    ghost Value = { List Outcome };

    ghost view = { λ o. o.outcomes.items };
}

impl Outcomes {
    /// Returns an empty list. Takes no memory.
    pub fn new(alloc: Global) -> Outcomes
        ensures { result ≡ [] }
    {
        Outcomes {
            outcomes: Vec::new(alloc),
        }
    }

    /// Wraps a `Vec`. Takes no memory.
    pub(crate) fn of(outcomes: Vec<Outcome>) -> Outcomes
        ensures { result ≡ outcomes.items }
    {
        Outcomes { outcomes }
    }

    /// Returns the outcomes as a `Vec`. Takes no memory.
    pub fn into_list(self) -> Vec<Outcome>
        ensures { result.items ≡ self }
    {
        self.outcomes
    }

    /// Appends an outcome. If memory runs out, the list is unchanged and the error hands the outcome back.
    pub fn push(&mut self, outcome: Outcome) -> Result<(), AllocFailed<Outcome>>
        ensures ok { OnOk result (self.new ≡ self.old ++ outcome ∷ []) }
        ensures err { OnErr result (self.new ≡ self.old) }
        ensures back { IfErr result (λ back. back.value ≡ outcome) }
    {
        self.outcomes.push(outcome)
    }

    /// Returns how many outcomes there are.
    pub fn len(&self) -> usize
        ensures { result ≡ length self.now }
    {
        self.outcomes.len()
    }

    /// Returns the outcome at an index from 0, or `None` past the end.
    pub fn get(&self, index: usize) -> Option<&Outcome>
        ensures { option_copied result ≡ slice_get self.now index }
    {
        self.outcomes.get(index)
    }

    /// Returns a copy. A copy of no outcomes takes no memory.
    pub fn copy(&self, alloc: Global) -> Result<Outcomes, NoRoom>
        ensures same { IfOk result (λ copy. copy ≡ self.now) }
        ensures room { OnErr result (self.now ≢ []) }
    {
        let mut outcomes = Vec::new(alloc);
        for outcome in &self.outcomes {
            outcomes.push(outcome.copy(alloc)?)?;
        }
        Ok(Outcomes { outcomes })
    }
}
