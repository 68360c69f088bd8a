//! A turn: a seat takes the turn, takes the machine out of the slot, steps it, puts it back, and ends the turn.

ghost use Rattle.std.specs.Prelude.{◌≡◌, ◌≢◌, ℕ, ◌+◌, ◌*◌, ◌%◌, ◌^◌, ◌<◌, ◌≤◌, [], ◌∷◌, length, Some, None, true, false};
ghost use Rattle.std.specs.Prelude.{IfSome, IfNone, IfOk, IfErr};
ghost use Rattle.history.specs.History.{IsLegal, Run, Stepped};
ghost use Rattle.desk_rule.specs.History.{OwnCalls};
ghost use Rattle.desk_rule.specs.Kinds.{EntersCall, Looks, LooksAlone, TakesTurn, TellsTurn, after_turn};
ghost use Rattle.desk_rule.specs.Seat.{EndsTurn, HoldsTurn, IsAtTable, SameSeat};
ghost use Rattle.desk_rule.specs.Free.{MissesTurn};
ghost use Rattle.desk_rule.specs.Steps.{FindsWorn, HoldsTurnAt, MakesCall, Rests};

use crate::play::{EndTurn, Hold};
use crate::step::look;
use crate::table::{DeskSeat, DeskShared, Home, LastCall};
use history::Machine;
use std::snapshot::Snapshot;
use std::sync::Wait;
use std::thread;

// The value of word 0 if no place is left.
const WORN: u64 = 1 << 63;

/// Waits until the turn is free and takes it, steps the machine once, and ends the turn. Returns the place of the call and the reply, or
/// `None` if no place is left. The call becomes the last entry of the history and of its pass's calls.
pub fn call_in_turn<M: Machine, W: Wait>(
    rt: &W,
    shared: &DeskShared<M>,
    seat: &mut DeskSeat<M>,
    command: M::Command,
) -> Option<(u64, M::Reply)>
where
    M::Command: Drop,
    requires at { IsAtTable shared.now.table_id seat.old }
    requires rests { Rests seat.old }
    ensures called { IfSome result (λ told. MakesCall (Stepped M.stands M.steps) seat.old command told.1 told.0 seat.new) }
    ensures worn { IfNone result (FindsWorn (Stepped M.stands M.steps) seat.old seat.new) }
{
    let Some(place) = wait_turn(rt, shared, seat) else {
        return None;
    };
    let reply = run_turn(shared, seat, command);
    Some((place, reply))
}

/// Why a try for the turn ended without a call.
#[derive(Clone, Copy, Drop, PartialEq, Eq)]
pub enum NoTurn {
    /// At each try, another seat held the turn or took it first.
    Busy,
    /// No place is left.
    Worn,
}

// Tries for the turn once: loads word 0, and takes the turn if it is free.
pub(crate) fn try_once<M: Machine>(
    shared: &DeskShared<M>,
    seat: &mut DeskSeat<M>,
) -> Result<u64, NoTurn>
    requires at { IsAtTable shared.now.table_id seat.old }
    requires rests { Rests seat.old }
    ensures same { SameSeat seat.old seat.new }
    ensures turn { IfOk result (λ place. HoldsTurnAt (Stepped M.stands M.steps) seat.old place seat.new) }
    ensures missed { IfErr result (λ stop. MissesTurn (Stepped M.stands M.steps) M.owes stop seat.old seat.new) }
{
    let word = look(shared, seat);
    if word == WORN {
        return Err(NoTurn::Worn);
    }
    let Some(place) = free_place(word) else {
        return Err(NoTurn::Busy);
    };
    if hold(shared, seat, word) == word {
        Ok(place)
    } else {
        Err(NoTurn::Busy)
    }
}

// Returns the place of the next call by a value of word 0, or `None` if the word says that a seat holds the turn.
fn free_place(word: u64) -> Option<u64>
    ensures free { IfSome result (λ place. word ≡ 2 * place) }
    ensures held { IfNone result (word % 2 ≡ 1) }
{
    if word % 2 == 0 { Some(word / 2) } else { None }
}

// Waits until the turn is free, and takes it. Returns the place of the call, or `None` if no place is left.
fn wait_turn<M: Machine, W: Wait>(
    rt: &W,
    shared: &DeskShared<M>,
    seat: &mut DeskSeat<M>,
) -> Option<u64>
    requires at { IsAtTable shared.now.table_id seat.old }
    requires rests { Rests seat.old }
    ensures same { SameSeat seat.old seat.new }
    ensures turn { IfSome result (λ place. HoldsTurnAt (Stepped M.stands M.steps) seat.old place seat.new) }
    ensures worn { IfNone result (Looks (Stepped M.stands M.steps) seat.old.me.0 (2 ^ 63) false seat.new.me.0 × Rests seat.new) }
{
    for _ in rt.forever() {
        match try_once(shared, seat) {
            Ok(place) => return Some(place),
            Err(NoTurn::Worn) => return None,
            Err(NoTurn::Busy) => thread::yield_now(),
        }
    }
    unreachable!()
}

// Steps the machine, and ends the turn.
pub(crate) fn run_turn<M: Machine>(
    shared: &DeskShared<M>,
    seat: &mut DeskSeat<M>,
    command: M::Command,
) -> M::Reply
    requires at { IsAtTable shared.now.table_id seat.old }
    requires holds { HoldsTurn (Stepped M.stands M.steps) seat.old }
    ensures same { SameSeat seat.old seat.new }
    ensures ended { seat.new.me ≡ (after_turn seat.old.me.0 command result, []) }
    ensures own { OwnCalls seat.new.me.0.seen seat.new.me.0.passes }
    ensures legal { (m : M) → seat.old.me.0.opening ≡ Some m → IsLegal (Stepped M.stands M.steps) m seat.new.me.0.seen }
{
    let Home {
        mut machine,
        last: _,
    } = machine_out(shared, seat);
    let said = Snapshot::of(&command);
    let reply = machine.step(command);
    let last = LastCall {
        command: said,
        reply: Snapshot::of(&reply),
    };
    machine_back(
        shared,
        seat,
        Home {
            machine,
            last: Some(last),
        },
    );
    end_turn(shared, seat);
    reply
}

// Takes the turn if word 0 is `word`, which must be a word of a free turn. Returns the word before. If that is another
// word, the step was only a `look`.
fn hold<M: Machine>(shared: &DeskShared<M>, seat: &mut DeskSeat<M>, word: u64) -> u64
    requires at { IsAtTable shared.now.table_id seat.old }
    requires some_pass { 0 < length seat.old.me.0.passes }
    requires free { (n : ℕ) × (word ≡ 2 * n) × (n < 2 ^ 62) }
    ensures same { SameSeat seat.old seat.new }
    ensures held { result ≡ word → TakesTurn (Stepped M.stands M.steps) seat.old.me result seat.new.me }
    ensures missed { result ≢ word → LooksAlone (Stepped M.stands M.steps) seat.old.me result seat.new.me }
    ensures below { result ≤ 2 ^ 63 }
    ensures turn { TellsTurn (Stepped M.stands M.steps) M.owes seat.old.me.0 result }
{
    shared.compare_exchange::<Hold>(seat, 0, word, word + 1)
}

// Takes the contents out of the slot: the last call, and the machine after all entries that the seat has seen.
fn machine_out<M: Machine>(
    shared: &DeskShared<M>,
    seat: &mut DeskSeat<M>,
) -> Home<M, M::Command, M::Reply>
    requires at { IsAtTable shared.now.table_id seat.old }
    requires holds { HoldsTurn (Stepped M.stands M.steps) seat.old }
    ensures same { SameSeat seat.old seat.new }
    ensures held { seat.old.me.1 ≡ (0, Some result) ∷ [] }
    ensures out { seat.new.me ≡ (seat.old.me.0, (0, None) ∷ []) }
    ensures machine { (m : M) → seat.old.me.0.opening ≡ Some m → Run (Stepped M.stands M.steps) m seat.old.me.0.seen result.machine }
{
    match shared.exchange(seat, 0, None) {
        Some(home) => home,
        None => unreachable!(),
    }
}

// Puts the machine back into the slot, with the call that it answered.
fn machine_back<M: Machine>(
    shared: &DeskShared<M>,
    seat: &mut DeskSeat<M>,
    home: Home<M, M::Command, M::Reply>,
)
    requires at { IsAtTable shared.now.table_id seat.old }
    requires out { seat.old.me.1 ≡ (0, None) ∷ [] }
    ensures same { SameSeat seat.old seat.new }
    ensures back { seat.new.me ≡ (seat.old.me.0, (0, Some home) ∷ []) }
{
    match shared.exchange(seat, 0, Some(home)) {
        None => {}
        Some(_) => unreachable!(),
    }
}

// Ends the turn. The call becomes the last entry of the history and of its pass's calls.
fn end_turn<M: Machine>(shared: &DeskShared<M>, seat: &mut DeskSeat<M>)
    requires at { IsAtTable shared.now.table_id seat.old }
    requires ends { EndsTurn (Stepped M.stands M.steps) seat.old }
    ensures same { SameSeat seat.old seat.new }
    ensures ended { EntersCall seat.old.me seat.new.me }
{
    shared.fetch_add::<EndTurn>(seat, 0, 1);
}
