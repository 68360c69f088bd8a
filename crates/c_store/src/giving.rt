//! Moves, as C has them, written to a buffer of the caller's.

ghost use Rattle.std.specs.Prelude.{◌≡◌, ◌++◌, ◌∷◌, [], List, drop};
ghost use Rattle.driver_tables.specs.declared.moves.Move.{Move};
ghost use Rattle.c_store.specs.Giving.{told_move, blank_move, GivesMoves};
ghost use Rattle.c_store.specs.declared.giving.TableMove.{TableMove};

use crate::moves::LastMoves;
use driver_tables::{Ending, Move, Moves};
use ds_names::Endpoint;

/// A move, as C has it.
#[repr(C)]
#[derive(Clone, Copy)]
pub struct TableMove {
    /// The request.
    pub id: u64,
    /// From 0: start, send, done, fault, held.
    pub kind: u32,
    /// With `slot`, the endpoint of a start and a send.
    pub generation: u32,
    pub slot: u16,
    /// The port of a start.
    pub unit: u8,
}

impl LastMoves {
    /// Writes the moves to a buffer, from the one at index `first` on: as many as fit. Returns how many.
    pub(crate) fn give(&self, first: usize, room: &mut [TableMove]) -> usize
        ensures { GivesMoves (drop first self.now) room.old result room.new }
    {
        let mut left = first;
        let mut count = 0;
        for round in &self.rounds {
            count = give_round(round, left, room, count);
            left = left.saturating_sub(round.len());
        }
        match self.own {
            Some(step) if left == 0 => give_one(&step, room, count),
            _ => count,
        }
    }
}

// Writes the moves of a round after the first `count` of a buffer, from the one at index `first` on. Returns how many the buffer has then.
fn give_round(round: &Moves, first: usize, room: &mut [TableMove], count: usize) -> usize
    ensures { (moves : List Move) (place : List TableMove) → GivesMoves moves place count room.old →
        GivesMoves (moves ++ drop first round.now) place result room.new }
{
    let mut count = count;
    for index in first..round.len() {
        let Some(step) = round.get(index) else {
            unreachable!()
        };
        count = give_one(step, room, count);
    }
    count
}

// Writes a move after the first `count` of a buffer, if it fits. Returns how many the buffer has then.
fn give_one(step: &Move, room: &mut [TableMove], count: usize) -> usize
    ensures { (moves : List Move) (place : List TableMove) → GivesMoves moves place count room.old →
        GivesMoves (moves ++ step.now ∷ []) place result room.new }
{
    if count < room.len() {
        room[count] = told_move(step);
        count + 1
    } else {
        count
    }
}

// A move, as C has it.
fn told_move(step: &Move) -> TableMove
    ensures { result ≡ told_move step.now }
{
    match step {
        Move::Start { unit, endpoint } => TableMove {
            unit: *unit,
            ..sent_to(0, 0, *endpoint)
        },
        Move::Send { id, endpoint } => sent_to(1, *id, *endpoint),
        Move::Answer {
            id,
            ending: Ending::Done,
        } => blank(2, *id),
        Move::Answer {
            id,
            ending: Ending::Fault,
        } => blank(3, *id),
        Move::Held { id } => blank(4, *id),
    }
}

// Returns a move of a kind to an endpoint, for a request; a start is for request 0.
fn sent_to(kind: u32, id: u64, endpoint: Endpoint) -> TableMove
    ensures { result ≡ record (blank_move kind id) { generation = endpoint.generation; slot = endpoint.slot } }
{
    TableMove {
        generation: endpoint.generation().number(),
        slot: endpoint.slot(),
        ..blank(kind, id)
    }
}

// Returns a move of a kind for a request, with zeros for the rest.
fn blank(kind: u32, id: u64) -> TableMove
    ensures { result ≡ blank_move kind id }
{
    TableMove {
        id,
        kind,
        generation: 0,
        slot: 0,
        unit: 0,
    }
}
