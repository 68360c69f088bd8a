//! Calls that never wait for their turn.

ghost use Rattle.std.specs.Prelude.{IfOk, IfErr};
ghost use Rattle.history.specs.History.{Stepped};
ghost use Rattle.desk_rule.specs.Seat.{IsAtTable, SameSeat};
ghost use Rattle.desk_rule.specs.Free.{FindsNoTurn, MissesTurn};
ghost use Rattle.desk_rule.specs.Steps.{HoldsTurnAt, MakesCall, Rests};

use crate::table::{DeskSeat, DeskShared};
use crate::turn::{NoTurn, run_turn, try_once};
use history::Machine;
use std::hint;

/// Like `call_in_turn`, but never waits: tries for the turn `tries` times, at least once. If no try gets it, the command is
/// dropped and the history is unchanged.
pub fn call_if_free<M: Machine>(
    shared: &DeskShared<M>,
    seat: &mut DeskSeat<M>,
    command: M::Command,
    tries: u32,
) -> Result<(u64, M::Reply), NoTurn>
where
    M::Command: Drop,
    requires at { IsAtTable shared.now.table_id seat.old }
    requires rests { Rests seat.old }
    ensures called { IfOk result (λ told. MakesCall (Stepped M.stands M.steps) seat.old command told.1 told.0 seat.new) }
    ensures missed { IfErr result (λ stop. FindsNoTurn (Stepped M.stands M.steps) M.owes stop seat.old seat.new) }
{
    match try_turn(shared, seat, tries) {
        Ok(place) => {
            let reply = run_turn(shared, seat, command);
            Ok((place, reply))
        }
        Err(stop) => Err(stop),
    }
}

// Tries for the turn this many times, at least once.
fn try_turn<M: Machine>(
    shared: &DeskShared<M>,
    seat: &mut DeskSeat<M>,
    tries: u32,
) -> Result<u64, NoTurn>
    requires at { IsAtTable shared.now.table_id seat.old }
    requires rests { Rests seat.old }
    ensures same { SameSeat seat.old seat.new }
    ensures turn { IfOk result (λ place. HoldsTurnAt (Stepped M.stands M.steps) seat.old place seat.new) }
    ensures missed { IfErr result (λ stop. MissesTurn (Stepped M.stands M.steps) M.owes stop seat.old seat.new) }
{
    for _ in 1..tries {
        match try_once(shared, seat) {
            Ok(place) => return Ok(place),
            Err(NoTurn::Worn) => return Err(NoTurn::Worn),
            Err(NoTurn::Busy) => hint::spin_loop(),
        }
    }
    try_once(shared, seat)
}
