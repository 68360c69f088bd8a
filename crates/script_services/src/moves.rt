//! Moves, and their number.

ghost use Rattle.std.specs.Prelude.{◌≡◌, ◌≤◌, ◌++◌, length, vec_len, IfOk, OnOk, OnErr};
ghost use Rattle.rs_to_store.specs.Submitting.{all_in};
ghost use Rattle.script_services.specs.Tables.{move_lines, moves_text, own_moves};
ghost use Rattle.script_services.specs.Waiting.{AppendsSome};

use driver_tables::{Move, Moves, TableFault};
use ds_names::NoRoom;
use script_answers::{append_move, append_move_count, append_table_fault};

/// Appends the moves of rounds, the request's own move, and the number of all; or, in place of the last two, the
/// refusal. If memory runs out, appends nothing.
pub(crate) fn append_moves(
    output: &mut Vec<u8>,
    rounds: &Vec<Moves>,
    own: &Result<Option<Move>, TableFault>,
) -> Result<(), NoRoom>
    ensures written { OnOk result (output.new.items ≡ output.old.items ++ moves_text (all_in rounds.now.items) (own_moves own.now)) }
    ensures unwritten { OnErr result (output.new.items ≡ output.old.items) }
{
    let start = output.len();
    match append_lines(output, rounds, own) {
        Ok(()) => Ok(()),
        Err(NoRoom) => {
            output.truncate(start);
            Err(NoRoom)
        }
    }
}

// Like `append_moves`, but if memory runs out, some lines may remain.
fn append_lines(
    output: &mut Vec<u8>,
    rounds: &Vec<Moves>,
    own: &Result<Option<Move>, TableFault>,
) -> Result<(), NoRoom>
    ensures written { OnOk result (output.new.items ≡ output.old.items ++ moves_text (all_in rounds.now.items) (own_moves own.now)) }
    ensures some { OnErr result (AppendsSome output.old.items output.new.items) }
{
    let count = append_rounds(output, rounds)?;
    match own {
        Ok(None) => append_move_count(output, count),
        Ok(Some(step)) => {
            append_move(output, *step)?;
            append_move_count(output, count + 1)
        }
        Err(fault) => append_table_fault(output, *fault),
    }
}

// Appends the lines of the rounds' moves, and returns their number.
fn append_rounds(output: &mut Vec<u8>, rounds: &Vec<Moves>) -> Result<usize, NoRoom>
    ensures written { OnOk result (output.new.items ≡ output.old.items ++ move_lines (all_in rounds.now.items)) }
    ensures count { IfOk result (λ count. count ≡ length (all_in rounds.now.items)) }
    ensures few { IfOk result (λ count. count ≤ vec_len output.new) }
    ensures some { OnErr result (AppendsSome output.old.items output.new.items) }
{
    let mut count = 0usize;
    for round in rounds {
        count += append_round(output, round)?;
    }
    Ok(count)
}

// Appends the lines of a round's moves, and returns their number.
fn append_round(output: &mut Vec<u8>, round: &Moves) -> Result<usize, NoRoom>
    ensures written { OnOk result (output.new.items ≡ output.old.items ++ move_lines round.now) }
    ensures count { IfOk result (λ count. count ≡ length round.now) }
    ensures some { OnErr result (AppendsSome output.old.items output.new.items) }
{
    for index in 0..round.len() {
        let Some(step) = round.get(index) else {
            unreachable!()
        };
        append_move(output, *step)?;
    }
    Ok(round.len())
}
