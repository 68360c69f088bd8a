//! The lines of driver tables' moves.

ghost use Rattle.std.specs.Prelude.{◌≡◌, ◌++◌, OnOk, OnErr};
ghost use Rattle.script_answers.specs.Moves.{assigned_line, ending_word, move_line, move_count_line, table_fault_line, table_fault_word};

use crate::process::append_process;
use driver_tables::{Ending, Move, TableFault};
use ds_line::{append_all, append_numbers};
use ds_names::NoRoom;
use itoa::Buffer;

/// Appends the answer to `assign`. If memory runs out, the buffer is unchanged.
pub fn append_assigned(buffer: &mut Vec<u8>) -> Result<(), NoRoom>
    ensures written { OnOk result (buffer.new.items ≡ buffer.old.items ++ assigned_line) }
    ensures unchanged { OnErr result (buffer.new.items ≡ buffer.old.items) }
{
    append_all(buffer, &[b"assigned\n"])
}

/// Appends the line of a server's move: `start UNIT ENDPOINT`, `send ID ENDPOINT`, `answer ID done`, `answer ID fault`
/// or `held ID`. If memory runs out, the buffer is unchanged.
pub fn append_move(buffer: &mut Vec<u8>, step: Move) -> Result<(), NoRoom>
    ensures written { OnOk result (buffer.new.items ≡ buffer.old.items ++ move_line step) }
    ensures unchanged { OnErr result (buffer.new.items ≡ buffer.old.items) }
{
    let mut digits = Buffer::new();
    match step {
        Move::Start { unit, endpoint } => {
            let unit = digits.format(unit).as_bytes();
            append_process(buffer, &[b"start ", unit, b" "], endpoint)
        }
        Move::Send { id, endpoint } => {
            let id = digits.format(id).as_bytes();
            append_process(buffer, &[b"send ", id, b" "], endpoint)
        }
        Move::Answer { id, ending } => {
            let id = digits.format(id).as_bytes();
            append_all(
                buffer,
                &[b"answer ", id, b" ", word_of_ending(ending), b"\n"],
            )
        }
        Move::Held { id } => append_numbers(buffer, &[(b"held ", id)]),
    }
}

/// Appends the number of a line's moves. If memory runs out, the buffer is unchanged.
pub fn append_move_count(buffer: &mut Vec<u8>, count: usize) -> Result<(), NoRoom>
    ensures written { OnOk result (buffer.new.items ≡ buffer.old.items ++ move_count_line count) }
    ensures unchanged { OnErr result (buffer.new.items ≡ buffer.old.items) }
{
    append_numbers(buffer, &[(b"moves ", count as u64)])
}

/// Appends a driver table's refusal. If memory runs out, the buffer is unchanged.
pub fn append_table_fault(buffer: &mut Vec<u8>, fault: TableFault) -> Result<(), NoRoom>
    ensures written { OnOk result (buffer.new.items ≡ buffer.old.items ++ table_fault_line fault) }
    ensures unchanged { OnErr result (buffer.new.items ≡ buffer.old.items) }
{
    append_all(buffer, &[b"refused ", word_of_fault(fault), b"\n"])
}

fn word_of_ending(ending: Ending) -> &'static [u8]
    ensures { result.now ≡ ending_word ending }
{
    match ending {
        Ending::Done => b"done",
        Ending::Fault => b"fault",
    }
}

fn word_of_fault(fault: TableFault) -> &'static [u8]
    ensures { result.now ≡ table_fault_word fault }
{
    match fault {
        TableFault::Assigned => b"assigned",
        TableFault::TwoIds => b"twoids",
        TableFault::NoDevice => b"nodevice",
        TableFault::NotPending => b"notpending",
        TableFault::OldEndpoint => b"oldendpoint",
        TableFault::NoRoom => b"noroom",
    }
}
