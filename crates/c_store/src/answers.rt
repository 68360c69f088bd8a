//! Answers of a driver table, in numbers.

ghost use Rattle.std.specs.Prelude.{◌≡◌};
ghost use Rattle.std.specs.Option.{option_to_list};
ghost use Rattle.driver_tables.specs.Run.{one_move, no_moves};
ghost use Rattle.c_store.specs.Answers.{table_fault_number, stop_number, told_moves, told_call, told_fault};

use crate::moves::LastMoves;
use c_values::{Answer, Word};
use driver_tables::TableFault;

// The word of an answer with moves, after those of `Word`.
const MOVED: u32 = 17;

/// Returns the answer with moves; `stop` is why the call ended early, if it did.
pub(crate) fn told_moves(moves: &LastMoves, stop: Option<TableFault>) -> Answer
    ensures { result ≡ told_moves moves.now stop }
{
    Answer {
        count: moves.count(),
        refusal: stop_number(stop),
        word: MOVED,
        ..Answer::no_request()
    }
}

/// Returns the answer to a call that the table refused.
pub(crate) fn told_fault(fault: TableFault) -> Answer
    ensures { result ≡ told_fault fault }
{
    Answer {
        refusal: table_fault_number(fault),
        ..Answer::of(Word::Refused)
    }
}

// The number of a cause; 0 for none.
fn stop_number(stop: Option<TableFault>) -> u32
    ensures { result ≡ stop_number stop }
{
    match stop {
        Some(fault) => table_fault_number(fault),
        None => 0,
    }
}

// The number of a fault: those that a store or RS has too have theirs.
fn table_fault_number(fault: TableFault) -> u32
    ensures { result ≡ table_fault_number fault }
{
    match fault {
        TableFault::Assigned => 40,
        TableFault::TwoIds => 41,
        TableFault::NoDevice => 42,
        TableFault::NotPending => 43,
        TableFault::OldEndpoint => 30,
        TableFault::NoRoom => 20,
    }
}
