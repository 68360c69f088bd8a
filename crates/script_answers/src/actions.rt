//! The lines of RS's actions.

ghost use Rattle.std.specs.Prelude.{◌≡◌, ◌++◌, OnOk, OnErr};
ghost use Rattle.script_answers.specs.Actions.{action_line, action_count_line, offer_line, rs_fault_line, rs_fault_word, sweep_line};

use crate::process::append_process;
use ds_entry::{Change, Floor};
use ds_line::{append_all, append_change, append_numbers};
use ds_names::NoRoom;
use itoa::Buffer;
use rs_core::{Action, RsFault};

/// Appends the line of an action of RS: `kill ENDPOINT`, `start LABEL ENDPOINT`, `ping ENDPOINT`, `offer CHANGE` or
/// `sweep OWNER GENERATION`. If memory runs out, the buffer is unchanged.
pub fn append_action(buffer: &mut Vec<u8>, action: &Action) -> Result<(), NoRoom>
    ensures written { OnOk result (buffer.new.items ≡ buffer.old.items ++ action_line action.now) }
    ensures unchanged { OnErr result (buffer.new.items ≡ buffer.old.items) }
{
    match action {
        Action::Kill(endpoint) => append_process(buffer, &[b"kill "], *endpoint),
        Action::Start(label, endpoint) => {
            append_process(buffer, &[b"start ", label.bytes(), b" "], *endpoint)
        }
        Action::Ping(endpoint) => append_process(buffer, &[b"ping "], *endpoint),
        Action::Offer(change) => append_offer(buffer, change),
        Action::Sweep(floor) => append_sweep(buffer, floor),
    }
}

/// Appends the number of an event's actions. If memory runs out, the buffer is unchanged.
pub fn append_action_count(buffer: &mut Vec<u8>, count: usize) -> Result<(), NoRoom>
    ensures written { OnOk result (buffer.new.items ≡ buffer.old.items ++ action_count_line count) }
    ensures unchanged { OnErr result (buffer.new.items ≡ buffer.old.items) }
{
    append_numbers(buffer, &[(b"actions ", count as u64)])
}

/// Appends RS's refusal of an event. If memory runs out, the buffer is unchanged.
pub fn append_rs_fault(buffer: &mut Vec<u8>, fault: RsFault) -> Result<(), NoRoom>
    ensures written { OnOk result (buffer.new.items ≡ buffer.old.items ++ rs_fault_line fault) }
    ensures unchanged { OnErr result (buffer.new.items ≡ buffer.old.items) }
{
    append_all(buffer, &[b"refused ", word_of_fault(fault), b"\n"])
}

// Appends the line of a change for the data store.
fn append_offer(buffer: &mut Vec<u8>, change: &Change) -> Result<(), NoRoom>
    ensures written { OnOk result (buffer.new.items ≡ buffer.old.items ++ offer_line change.now) }
    ensures unchanged { OnErr result (buffer.new.items ≡ buffer.old.items) }
{
    let start = buffer.len();
    append_all(buffer, &[b"offer "])?;
    let written = append_change(buffer, change);
    if written.is_err() {
        buffer.truncate(start);
    }
    written
}

// Appends the line of a floor for the data store to raise.
fn append_sweep(buffer: &mut Vec<u8>, floor: &Floor) -> Result<(), NoRoom>
    ensures written { OnOk result (buffer.new.items ≡ buffer.old.items ++ sweep_line floor.now) }
    ensures unchanged { OnErr result (buffer.new.items ≡ buffer.old.items) }
{
    let owner = floor.owner.bytes();
    let mut digits = Buffer::new();
    let generation = digits.format(floor.generation.number()).as_bytes();
    append_all(buffer, &[b"sweep ", owner, b" ", generation, b"\n"])
}

fn word_of_fault(fault: RsFault) -> &'static [u8]
    ensures { result.now ≡ rs_fault_word fault }
{
    match fault {
        RsFault::TickBack => b"tickback",
        RsFault::Worn => b"worn",
        RsFault::UnknownLabel => b"unknownlabel",
        RsFault::BadCause => b"badcause",
        RsFault::AlreadyUp => b"alreadyup",
        RsFault::NotUp => b"notup",
        RsFault::OldEndpoint => b"oldendpoint",
        RsFault::GenerationsSpent => b"generationsspent",
        RsFault::NoSlot => b"noslot",
        RsFault::NoRoom => b"noroom",
    }
}
