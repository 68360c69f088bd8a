//! Splitting and joining of seats.

ghost use Rattle.std.specs.Prelude.{◌≡◌, ℕ, ◌+◌, ◌<◌, [], false};
ghost use Rattle.desk_rule.specs.Kinds.{after_note, after_pass, note_view, one_pass, other_passes};
ghost use Rattle.desk_rule.specs.Passes.{fresh};
ghost use Rattle.desk_rule.specs.Seat.{IsAtTable};
ghost use Rattle.desk_rule.specs.Steps.{Joins, MayJoin, Splits};

use crate::play::{JoinNote, JoinPass, SplitNote, SplitPass};
use crate::table::{DeskSeat, DeskShared};
use history::Machine;

/// Splits off a seat for one of the passes at this seat. None of them has called anything, and at least one stays.
pub fn split_pass<M: Machine>(shared: &DeskShared<M>, seat: &mut DeskSeat<M>) -> DeskSeat<M>
    requires at { IsAtTable shared.now.table_id seat.old }
    requires fresh { (n : ℕ) × (seat.old.me.0.passes ≡ fresh (n + 2)) }
    requires resting { seat.old.me.0.holding ≡ false }
    ensures split { Splits seat.old seat.new result (other_passes seat.old.me.0) (one_pass seat.old.me.0) }
{
    shared.split_seat::<SplitPass>(seat)
}

/// Splits off a seat without a pass, which knows what this seat has seen.
pub fn split_note<M: Machine>(shared: &DeskShared<M>, seat: &mut DeskSeat<M>) -> DeskSeat<M>
    requires { IsAtTable shared.now.table_id seat.old }
    ensures split { Splits seat.old seat.new result seat.old.me.0 (note_view seat.old.me.0) }
{
    shared.split_seat::<SplitNote>(seat)
}

/// Lets the seat learn what a note has seen. The note is spent.
pub fn join_note<M: Machine>(shared: &DeskShared<M>, seat: &mut DeskSeat<M>, note: DeskSeat<M>)
    requires at { IsAtTable shared.now.table_id seat.old }
    requires note { MayJoin shared.now.table_id note }
    requires no_pass { note.me.0.passes ≡ [] }
    ensures joined { Joins seat.old seat.new (after_note seat.old.me.0 note.me.0) }
{
    shared.join_seat::<JoinNote>(seat, note);
}

/// Moves the other seat's passes to this seat, with their records. This seat learns what the other one has seen. The other
/// one is spent.
pub fn join_pass<M: Machine>(shared: &DeskShared<M>, seat: &mut DeskSeat<M>, other: DeskSeat<M>)
    requires at { IsAtTable shared.now.table_id seat.old }
    requires other { MayJoin shared.now.table_id other }
    ensures joined { Joins seat.old seat.new (after_pass seat.old.me.0 other.me.0) }
{
    shared.join_seat::<JoinPass>(seat, other);
}
