//! The kinds of step at the table, one type each. These types are for proofs, and have no values at run time.

ghost use Rattle.history.specs.History.{Stepped};
ghost use Rattle.desk_rule.specs.Kinds.{after_note, after_pass, end_of_turn, hold, look, note_view, one_pass, other_passes, post, take};
ghost use Rattle.desk_rule.specs.Rule.{spent_view};

use crate::table::{DeskView, Slot};
use atomic_table::{Join, Play, Split};
use history::Machine;

/// A load of word 0.
pub struct Look;

impl<M: Machine> Play<Slot<M>, DeskView<M>> for Look {
    ghost then = { look (Stepped M.stands M.steps) M.owes };
}

/// A compare-and-exchange of word 0, which takes the turn if it is free.
pub struct Hold;

impl<M: Machine> Play<Slot<M>, DeskView<M>> for Hold {
    ghost then = { hold (Stepped M.stands M.steps) M.owes };
}

/// An increment of word 0, which ends the turn.
pub struct EndTurn;

impl<M: Machine> Play<Slot<M>, DeskView<M>> for EndTurn {
    ghost then = { end_of_turn };
}

/// An OR of bits into a pending word.
pub struct PostBits;

impl<M: Machine> Play<Slot<M>, DeskView<M>> for PostBits {
    ghost then = { post };
}

/// A swap of a pending word for 0.
pub struct TakeBits;

impl<M: Machine> Play<Slot<M>, DeskView<M>> for TakeBits {
    ghost then = { take M.owes };
}

/// A new seat with a pass that has called nothing.
pub struct SplitPass;

impl<M: Machine> Split<DeskView<M>> for SplitPass {
    ghost left = { other_passes };

    ghost right = { one_pass };
}

/// A new seat without a pass, which knows what this seat has seen.
pub struct SplitNote;

impl<M: Machine> Split<DeskView<M>> for SplitNote {
    ghost left = { λ v. v };

    ghost right = { note_view };
}

/// The learning of a note.
pub struct JoinNote;

impl<M: Machine> Join<DeskView<M>> for JoinNote {
    ghost both = { after_note };

    ghost spent = { spent_view };
}

/// The move of another seat's passes to this seat.
pub struct JoinPass;

impl<M: Machine> Join<DeskView<M>> for JoinPass {
    ghost both = { after_pass };

    ghost spent = { spent_view };
}
