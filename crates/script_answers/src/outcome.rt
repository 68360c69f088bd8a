//! The lines of an event's outcome, and of a script's settings.

ghost use Rattle.std.specs.Prelude.{◌≡◌, ◌++◌, OnOk, OnErr};
ghost use Rattle.script_answers.specs.Outcome.{event_fault_word, outcome_lines, ring_line, side_line};
ghost use Rattle.script_answers.specs.Outcome.{side_word};

use crate::reply::append_reply;
use crate::wording::Wording;
use ds_held::Limits;
use ds_line::{append_all, append_numbers};
use ds_machine::Reply;
use ds_names::NoRoom;
use ds_replica::{EventFault, Outcome, Side};

/// Appends the lines of an event's outcome, in a world whose stores have these limits. If memory runs out, the buffer
/// is unchanged.
///
/// A reply is written as by `append_reply`. A message has no line here: `append_message` writes the reply that it
/// keeps. A delivery is written by its counts, or by the count of items before it stopped and the cause; then comes
/// what it owes.
pub fn append_outcome(
    buffer: &mut Vec<u8>,
    wording: Wording,
    outcome: &Outcome,
    limits: Limits,
) -> Result<(), NoRoom>
    ensures written { OnOk result (buffer.new.items ≡ buffer.old.items ++ outcome_lines wording outcome.now limits) }
    ensures unchanged { OnErr result (buffer.new.items ≡ buffer.old.items) }
{
    match outcome {
        Outcome::Replied(reply) => append_reply(buffer, wording, reply, limits),
        Outcome::Made { .. } => Ok(()),
        Outcome::MapMade { map } => append_numbers(buffer, &[(b"map ", *map as u64)]),
        Outcome::Merged { count, owed } => {
            let merged = Reply::Merged {
                done: count.done,
                taken: count.taken,
                stale: count.stale,
                owed: *owed,
            };
            append_reply(buffer, Wording::AsMerge, &merged, limits)
        }
        Outcome::Stopped { done, fault, owed } => {
            let stopped = Reply::MergeStopped {
                done: *done,
                fault: *fault,
                owed: *owed,
            };
            append_reply(buffer, Wording::AsMerge, &stopped, limits)
        }
        Outcome::Cleared => append_all(buffer, &[b"cleared\n"]),
        Outcome::Restarted => append_all(buffer, &[b"restarted\n"]),
        Outcome::Refused(fault) => append_all(buffer, &[b"refused ", word_of_fault(*fault), b"\n"]),
    }
}

fn word_of_fault(fault: EventFault) -> &'static [u8]
    ensures { result.now ≡ event_fault_word fault }
{
    match fault {
        EventFault::MessagesFull => b"messagesfull",
        EventFault::MapsFull => b"mapsfull",
        EventFault::TooLong => b"toolong",
        EventFault::BadPattern => b"badpattern",
        EventFault::NoMessage => b"nomessage",
        EventFault::NoMap => b"nomap",
        EventFault::TooMany => b"toomany",
        EventFault::OldIncarnation => b"oldincarnation",
        EventFault::NoRoom => b"noroom",
    }
}

/// Appends the answer to `ring`. If memory runs out, the buffer is unchanged.
pub fn append_ring(buffer: &mut Vec<u8>, ring: u32) -> Result<(), NoRoom>
    ensures written { OnOk result (buffer.new.items ≡ buffer.old.items ++ ring_line ring) }
    ensures unchanged { OnErr result (buffer.new.items ≡ buffer.old.items) }
{
    append_numbers(buffer, &[(b"ring ", ring as u64)])
}

/// Appends the answer to `side`. If memory runs out, the buffer is unchanged.
pub fn append_side(buffer: &mut Vec<u8>, side: Side) -> Result<(), NoRoom>
    ensures written { OnOk result (buffer.new.items ≡ buffer.old.items ++ side_line side) }
    ensures unchanged { OnErr result (buffer.new.items ≡ buffer.old.items) }
{
    append_all(buffer, &[b"side ", word_of_side(side), b"\n"])
}

fn word_of_side(side: Side) -> &'static [u8]
    ensures { result.now ≡ side_word side }
{
    match side {
        Side::A => b"a",
        Side::B => b"b",
    }
}
