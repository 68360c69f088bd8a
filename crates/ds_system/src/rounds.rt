//! Lists of rounds of moves.

ghost use Rattle.std.specs.Prelude.{◌≡◌, ◌≢◌, ◌++◌, ◌∷◌, [], length, slice_get, OnOk, IfErr, OnErr, IfOk};
ghost use Rattle.std.specs.Option.{option_copied};

use driver_tables::Moves;
use ds_names::NoRoom;
use std::alloc::{AllocFailed, Global};
use std::marker::Model;

/// The moves of each label that was followed, in order. In a Follow the file server's rounds come first.
#[derive(Drop)]
pub struct Rounds {
    rounds: Vec<Moves>,
}

impl Model for Rounds {
    ghost use Rattle.std.specs.Prelude.{List};
    ghost use Rattle.driver_tables.specs.declared.moves.Move.{Move};

    ghost Value = { List (List Move) };

    ghost view = { λ r. r.rounds.items };
}

impl Rounds {
    /// Returns an empty list. It takes no memory.
    pub fn new(alloc: Global) -> Rounds
        ensures { result ≡ [] }
    {
        Rounds {
            rounds: Vec::new(alloc),
        }
    }

    /// Wraps a `Vec`, and takes no memory.
    pub(crate) fn of(rounds: Vec<Moves>) -> Rounds
        ensures { result ≡ rounds.items }
    {
        Rounds { rounds }
    }

    /// Appends a round. If memory runs out, the list is unchanged and the error hands the round back.
    pub fn push(&mut self, round: Moves) -> Result<(), AllocFailed<Moves>>
        ensures ok { OnOk result (self.new ≡ self.old ++ round ∷ []) }
        ensures err { OnErr result (self.new ≡ self.old) }
        ensures back { IfErr result (λ back. back.value ≡ round) }
    {
        self.rounds.push(round)
    }

    /// Returns the number of rounds.
    pub fn len(&self) -> usize
        ensures { result ≡ length self.now }
    {
        self.rounds.len()
    }

    /// Returns the round at an index from 0; `None` past the end.
    pub fn get(&self, index: usize) -> Option<&Moves>
        ensures { option_copied result ≡ slice_get self.now index }
    {
        self.rounds.get(index)
    }

    /// Returns a copy. A copy of no rounds takes no memory.
    pub fn copy(&self, alloc: Global) -> Result<Rounds, NoRoom>
        ensures same { IfOk result (λ copy. copy ≡ self.now) }
        ensures room { OnErr result (self.now ≢ []) }
    {
        let mut rounds = Vec::new(alloc);
        for round in &self.rounds {
            rounds.push(round.copy(alloc)?)?;
        }
        Ok(Rounds { rounds })
    }
}
