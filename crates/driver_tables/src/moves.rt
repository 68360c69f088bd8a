//! The moves of a server.

ghost use Rattle.std.specs.Prelude.{◌≡◌, ◌≢◌, ◌++◌, ◌∷◌, [], List, length, slice_get, OnOk, IfErr, OnErr, IfOk};
ghost use Rattle.std.specs.Option.{option_copied, option_to_list};

use ds_names::{Endpoint, NoRoom};
use std::alloc::{AllocFailed, Global};
use std::marker::Model;

/// How a request ended.
#[derive(Clone, Copy, PartialEq, Eq)]
pub enum Ending {
    /// Its driver replied.
    Done,
    /// Its driver is gone, and nobody knows how far it got; the application gets an error.
    Fault,
}

/// One action of a server.
#[derive(Clone, Copy, PartialEq, Eq)]
pub enum Move {
    /// Restarts a port, at the endpoint of its new driver.
    Start { unit: u8, endpoint: Endpoint },
    /// Sends a request to a driver.
    Send { id: u64, endpoint: Endpoint },
    /// Answers a request, which ends it.
    Answer { id: u64, ending: Ending },
    /// Holds a request until its block driver is back.
    Held { id: u64 },
}

/// A list of moves.
#[derive(Drop)]
pub struct Moves {
    moves: Vec<Move>,
}

impl Model for Moves {
    ghost use Rattle.std.specs.Prelude.{List};
    ghost use Rattle.driver_tables.specs.declared.moves.Move.{Move};

    ghost Value = { List Move };

    ghost view = { λ m. m.moves.items };
}

impl Moves {
    /// Returns an empty list. It takes no memory.
    pub fn new(alloc: Global) -> Moves
        ensures { result ≡ [] }
    {
        Moves {
            moves: Vec::new(alloc),
        }
    }

    /// Appends a move. If memory runs out, the error hands the move back.
    pub fn push(&mut self, step: Move) -> Result<(), AllocFailed<Move>>
        ensures added { OnOk result (self.new ≡ self.old ++ step ∷ []) }
        ensures unchanged { OnErr result (self.new ≡ self.old) }
        ensures back { IfErr result (λ back. back.value ≡ step) }
    {
        self.moves.push(step)
    }

    /// Returns the number of moves.
    pub fn len(&self) -> usize
        ensures { result ≡ length self.now }
    {
        self.moves.len()
    }

    /// Returns the move at an index from 0; `None` past the end.
    pub fn get(&self, index: usize) -> Option<&Move>
        ensures { option_copied result ≡ slice_get self.now index }
    {
        self.moves.get(index)
    }

    /// Returns a copy. A copy of no moves takes no memory.
    pub fn copy(&self, alloc: Global) -> Result<Moves, NoRoom>
        ensures same { IfOk result (λ moves. moves ≡ self.now) }
        ensures room { OnErr result (self.now ≢ []) }
    {
        let mut moves = Vec::new(alloc);
        moves.extend_from_slice(&self.moves)?;
        Ok(Moves { moves })
    }

    // Appends the move, if there is one.
    pub(crate) fn add(&mut self, step: Option<Move>) -> Result<(), NoRoom>
        ensures added { OnOk result (self.new ≡ self.old ++ option_to_list step) }
        ensures room { OnErr result (step ≢ None) }
    {
        if let Some(step) = step {
            self.push(step)?;
        }
        Ok(())
    }
}
