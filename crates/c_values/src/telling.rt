//! Turns replies into answers.

ghost use Rattle.std.specs.Prelude.{◌≡◌, ℕ, List};
ghost use Rattle.std.specs.Int.{to_le_bytes, w128};
ghost use Rattle.ds_machine.specs.declared.reply.Reply.TheVariants.{Named};
ghost use Rattle.c_values.specs.Answer.{refusal_number, told_of_items, told_refusal, told_no_room, told_value, told_reply, answer_of};

use crate::answer::{Answer, Word};
use crate::giving::pieces;
use ds_entry::Value;
use ds_feed::Cursor;
use ds_machine::{Refusal, Reply};
use ds_names::Version;

/// Returns the number of a refusal. The refusals of commands have numbers from 1, in the order in which a store judges, then come those of
/// opening.
pub fn refusal_number(refusal: Refusal) -> u32
    ensures { result ≡ refusal_number refusal }
{
    match refusal {
        Refusal::BadSub => 1,
        Refusal::TooMany => 2,
        Refusal::TooLong => 3,
        Refusal::BadPattern => 4,
        Refusal::BadKind => 5,
        Refusal::BadLabel => 6,
        Refusal::BadVersion => 7,
        Refusal::NoCaller => 8,
        Refusal::NotAllowed => 9,
        Refusal::NotOwner => 10,
        Refusal::Clash { .. } => 11,
        Refusal::Stale => 12,
        Refusal::Exists => 13,
        Refusal::NotFound => 14,
        Refusal::OldCursor => 15,
        Refusal::Ahead => 16,
        Refusal::Behind => 17,
        Refusal::Full => 18,
        Refusal::Worn => 19,
        Refusal::NoRoom => 20,
        Refusal::BadRing => 21,
        Refusal::BadFirst => 22,
    }
}

fn clash(word: Word, version: Version) -> Answer
    ensures { result ≡ told_refusal word (Refusal.Clash version) }
{
    let epoch = version.epoch.number();
    let seq = version.seq;
    Answer {
        refusal: 11,
        epoch,
        seq,
        ..Answer::of(word)
    }
}

fn refused(word: Word, refusal: Refusal) -> Answer
    ensures { result ≡ told_refusal word refusal }
{
    match refusal {
        Refusal::Clash { version } => clash(word, version),
        _ => Answer {
            refusal: refusal_number(refusal),
            ..Answer::of(word)
        },
    }
}

/// Returns the answer to a command for which memory ran out.
pub fn no_room() -> Answer
    ensures { result ≡ told_no_room }
{
    refused(Word::Refused, Refusal::NoRoom)
}

#[inline(always)]
fn found(value: &Value) -> Answer
    ensures { result ≡ told_value value.now }
{
    let answer = Answer::of(Word::Found);
    match value {
        Value::Label(endpoint) => Answer {
            kind: 1,
            value: endpoint.generation().number(),
            value_slot: endpoint.slot(),
            ..answer
        },
        Value::U32(number) => Answer {
            kind: 2,
            value: *number,
            ..answer
        },
        Value::Str(_) => Answer { kind: 4, ..answer },
        Value::Mem(_) => Answer { kind: 8, ..answer },
    }
}

// Returns the answer with items, and the stamps before and after them.
fn of_items(word: Word, before: u64, after: u64) -> Answer
    ensures { result ≡ told_of_items word before after }
{
    Answer {
        before,
        after,
        ..Answer::of(word)
    }
}

// Returns the answer with items and a cursor: `before` is its incarnation, and `after` its position.
fn at_cursor(word: Word, cursor: Cursor) -> Answer
    ensures { result ≡ told_of_items word cursor.incarnation cursor.position }
{
    of_items(word, cursor.incarnation, cursor.position)
}

#[inline(always)]
fn told(reply: &Reply) -> Answer
    ensures { result ≡ told_reply reply.now }
{
    match reply {
        Reply::Changed { .. } => Answer::of(Word::Changed),
        Reply::Known => Answer::of(Word::Known),
        Reply::Swept { count, .. } => Answer {
            count: *count as u64,
            ..Answer::of(Word::Swept)
        },
        Reply::Found(value) => found(value),
        Reply::Named(_) => Answer::of(Word::Named),
        Reply::Subscribed { stamp, .. } => Answer {
            after: *stamp,
            ..Answer::of(Word::Subscribed)
        },
        Reply::Checked { before, after, .. } => of_items(Word::Checked, *before, *after),
        Reply::Journaled(since) => at_cursor(Word::Journaled, since.cursor),
        Reply::Snapped(snapshot) => at_cursor(Word::Snapped, snapshot.cursor),
        Reply::Paged(page) => Answer {
            last: u8::from(page.last),
            ..of_items(Word::Paged, page.cursor.incarnation, page.cursor.position)
        },
        Reply::Merged {
            done,
            taken,
            stale,
            ..
        } => Answer {
            count: *done as u64,
            taken: *taken as u64,
            stale: *stale as u64,
            ..Answer::of(Word::Merged)
        },
        Reply::MergeStopped { done, fault, .. } => Answer {
            count: *done as u64,
            ..refused(Word::MergeStopped, *fault)
        },
        Reply::Refused(refusal) => refused(Word::Refused, *refusal),
    }
}

// Returns the bytes of a mask of owed notices. Is fast for 0, which most masks are.
fn owed_bytes(owed: u128) -> [u8; 16]
    ensures { result ≡ to_le_bytes w128 owed }
{
    if owed == 0 {
        [0; 16]
    } else {
        owed.to_le_bytes()
    }
}

/// Returns the answer that tells a name, whichever it is.
#[inline(always)]
#[tactic(auto, unfolding(crate::specs::Answer::answer_of))]
pub fn named() -> Answer
    ensures { (name : List ℕ) → result ≡ answer_of (Named name) }
{
    Answer {
        pieces: 1,
        ..Answer::of(Word::Named)
    }
}

/// Returns the answer for a reply, with the number of its pieces of text.
#[tactic(auto, unfolding(crate::specs::Answer::answer_of))]
#[inline(always)]
pub fn answer_of(reply: &Reply) -> Answer
    ensures { result ≡ answer_of reply.now }
{
    Answer {
        pieces: pieces(reply) as u64,
        owed: owed_bytes(reply.owed()),
        ..told(reply)
    }
}
