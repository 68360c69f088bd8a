//! The lines of a store's reply.

ghost use Rattle.std.specs.Prelude.{◌≡◌, ◌≤◌, ◌++◌, drop, codes, IfOk, OnOk, OnErr};
ghost use Rattle.std.specs.List.{flat_map};
ghost use Rattle.hex.specs.Hex.{encode_lower};
ghost use Rattle.ds_line.specs.ItemSpelling.{item_spelling};
ghost use Rattle.line_io.specs.Lines.{with_newline};
ghost use Rattle.ds_machine.specs.Given.{shown_by};
ghost use Rattle.script_answers.specs.declared.wording.Wording.TheVariants.{AsOffer, AsMerge};
ghost use Rattle.script_answers.specs.Reply.{refusal_word, refusal_words, refused, merged, stopped};
ghost use Rattle.script_answers.specs.Reply.{reply_words, owed_line, reply_lines, refused_noroom};

use crate::shown::{append_checked, append_journaled, append_paged, append_snapped};
use crate::wording::Wording;
use ds_held::Limits;
use ds_line::{append, append_all, append_numbers, append_value};
use ds_machine::{Refusal, Reply};
use ds_names::{NoRoom, Version};
use itoa::Buffer;
use std::alloc::Global;

/// Returns the lines of a reply from a store of these limits, with this wording of a Merge, or NoRoom if memory runs out.
///
/// The items of a check, of the journal, of a snapshot and of a page come first, each on its line. A change that took
/// effect is `taken`. An offer, which is a Merge of one item, is answered by the outcome of that item. Any other Merge is
/// answered by the numbers of items done, taken and stale. If notices are owed, the last line is the mask of their
/// subscriptions in hex: a byte for each eight subscriptions of the limits, the most significant byte first. The lines are
/// this project's own.
pub fn write_reply(
    alloc: Global,
    wording: Wording,
    reply: &Reply,
    limits: Limits,
) -> Result<Vec<u8>, NoRoom>
    ensures { IfOk result (λ text. text.items ≡ reply_lines wording reply.now limits) }
{
    let mut text = Vec::new(alloc);
    append_reply(&mut text, wording, reply, limits)?;
    Ok(text)
}

/// Appends the lines of a reply. If memory runs out, the buffer is unchanged.
pub fn append_reply(
    buffer: &mut Vec<u8>,
    wording: Wording,
    reply: &Reply,
    limits: Limits,
) -> Result<(), NoRoom>
    ensures written { OnOk result (buffer.new.items ≡ buffer.old.items ++ reply_lines wording reply.now limits) }
    ensures unchanged { OnErr result (buffer.new.items ≡ buffer.old.items) }
{
    let start = buffer.len();
    append_words(buffer, wording, reply)?;
    let written = append_owed(buffer, reply.owed(), limits);
    if written.is_err() {
        buffer.truncate(start);
    }
    written
}

/// Like `append_reply`, for an offer. If nobody is owed a notice, which is the usual case, the answer is one constant
/// text.
#[inline(always)]
pub fn append_offered(buffer: &mut Vec<u8>, reply: &Reply, limits: Limits) -> Result<(), NoRoom>
    ensures written { OnOk result (buffer.new.items ≡ buffer.old.items ++ reply_lines AsOffer reply.now limits) }
    ensures unchanged { OnErr result (buffer.new.items ≡ buffer.old.items) }
{
    match reply {
        Reply::Merged {
            taken,
            stale,
            owed: 0,
            ..
        } => append(buffer, offered(*taken, *stale)),
        _ => append_reply(buffer, Wording::AsOffer, reply, limits),
    }
}

/// Appends the refusal of a line for which memory ran out. If it runs out here too, the buffer is unchanged.
pub fn append_noroom(buffer: &mut Vec<u8>) -> Result<(), NoRoom>
    ensures written { OnOk result (buffer.new.items ≡ buffer.old.items ++ refused_noroom) }
    ensures unchanged { OnErr result (buffer.new.items ≡ buffer.old.items) }
{
    append(buffer, b"refused noroom\n")
}

// Appends the lines of a reply, except what is owed.
fn append_words(buffer: &mut Vec<u8>, wording: Wording, reply: &Reply) -> Result<(), NoRoom>
    ensures written { OnOk result (buffer.new.items
        ≡ buffer.old.items ++ (flat_map item_spelling (shown_by reply.now) ++ with_newline (reply_words wording reply.now))) }
    ensures unchanged { OnErr result (buffer.new.items ≡ buffer.old.items) }
{
    match reply {
        Reply::Changed { .. } => append(buffer, b"taken\n"),
        Reply::Known => append(buffer, b"known\n"),
        Reply::Swept { count, .. } => append_numbers(buffer, &[(b"swept ", *count as u64)]),
        Reply::Found(value) => append_value(buffer, b"found ", value, b"\n"),
        Reply::Named(name) => append_all(buffer, &[b"named ", name.bytes(), b"\n"]),
        Reply::Subscribed { stamp, .. } => append_numbers(buffer, &[(b"subscribed ", *stamp)]),
        Reply::Checked {
            items,
            before,
            after,
        } => append_checked(buffer, items, *before, *after),
        Reply::Journaled(since) => append_journaled(buffer, since),
        Reply::Snapped(snapshot) => append_snapped(buffer, snapshot),
        Reply::Paged(page) => append_paged(buffer, page),
        Reply::Merged {
            done,
            taken,
            stale,
            ..
        } => match wording {
            Wording::AsOffer => append(buffer, offered(*taken, *stale)),
            Wording::AsMerge => append_merged(buffer, *done, *taken, *stale),
        },
        Reply::MergeStopped { done, fault, .. } => match wording {
            Wording::AsOffer => append_refused(buffer, *fault),
            Wording::AsMerge => append_stopped(buffer, *done, *fault),
        },
        Reply::Refused(fault) => append_refused(buffer, *fault),
    }
}

// Returns the line of an offer's outcome, by the numbers of taken and stale items of its Merge.
fn offered(taken: usize, stale: usize) -> &'static [u8]
    ensures { result.now ≡ with_newline (merged AsOffer 1 taken stale) }
{
    if taken != 0 {
        b"taken\n"
    } else if stale != 0 {
        b"stale\n"
    } else {
        b"known\n"
    }
}

// Appends the line that counts the items of a Merge.
fn append_merged(
    buffer: &mut Vec<u8>,
    done: usize,
    taken: usize,
    stale: usize,
) -> Result<(), NoRoom>
    ensures written { OnOk result (buffer.new.items ≡ buffer.old.items ++ with_newline (merged AsMerge done taken stale)) }
    ensures unchanged { OnErr result (buffer.new.items ≡ buffer.old.items) }
{
    append_numbers(
        buffer,
        &[
            (b"merged ", done as u64),
            (b" ", taken as u64),
            (b" ", stale as u64),
        ],
    )
}

// Appends the line of a Merge that stopped after `done` items.
fn append_stopped(buffer: &mut Vec<u8>, done: usize, fault: Refusal) -> Result<(), NoRoom>
    ensures written { OnOk result (buffer.new.items ≡ buffer.old.items ++ with_newline (stopped AsMerge done fault)) }
    ensures unchanged { OnErr result (buffer.new.items ≡ buffer.old.items) }
{
    let mut digits = Buffer::new();
    let done = digits.format(done).as_bytes();
    append_refusal(buffer, &[b"stopped ", done, b" "], fault)
}

// Appends the line of a refusal.
fn append_refused(buffer: &mut Vec<u8>, refusal: Refusal) -> Result<(), NoRoom>
    ensures written { OnOk result (buffer.new.items ≡ buffer.old.items ++ with_newline (refused refusal)) }
    ensures unchanged { OnErr result (buffer.new.items ≡ buffer.old.items) }
{
    append_refusal(buffer, &[b"refused "], refusal)
}

// Appends some texts and the words of a refusal as one line.
fn append_refusal(buffer: &mut Vec<u8>, before: &[&[u8]], refusal: Refusal) -> Result<(), NoRoom>
    ensures written { OnOk result (buffer.new.items
        ≡ buffer.old.items ++ (flat_map (λ text. text.now) before.now ++ with_newline (refusal_words refusal))) }
    ensures unchanged { OnErr result (buffer.new.items ≡ buffer.old.items) }
{
    let start = buffer.len();
    append_all(buffer, before)?;
    let written = append_refusal_words(buffer, refusal);
    if written.is_err() {
        buffer.truncate(start);
    }
    written
}

// Appends the words of a refusal and a newline.
fn append_refusal_words(buffer: &mut Vec<u8>, refusal: Refusal) -> Result<(), NoRoom>
    ensures written { OnOk result (buffer.new.items ≡ buffer.old.items ++ with_newline (refusal_words refusal)) }
    ensures unchanged { OnErr result (buffer.new.items ≡ buffer.old.items) }
{
    match refusal {
        Refusal::Clash { version } => append_clash(buffer, version),
        _ => append_all(buffer, &[refusal_word(refusal), b"\n"]),
    }
}

// Appends the words of a clash at a version and a newline.
fn append_clash(buffer: &mut Vec<u8>, version: Version) -> Result<(), NoRoom>
    ensures written { OnOk result (buffer.new.items ≡ buffer.old.items ++ with_newline (refusal_words (Refusal.Clash version))) }
    ensures unchanged { OnErr result (buffer.new.items ≡ buffer.old.items) }
{
    let epoch = version.epoch.number() as u64;
    append_numbers(buffer, &[(b"clash ", epoch), (b".", version.seq as u64)])
}

fn refusal_word(refusal: Refusal) -> &'static [u8]
    ensures { result.now ≡ refusal_word refusal }
{
    match refusal {
        Refusal::BadSub => b"badsub",
        Refusal::TooMany => b"toomany",
        Refusal::TooLong => b"toolong",
        Refusal::BadPattern => b"badpattern",
        Refusal::BadKind => b"badkind",
        Refusal::BadLabel => b"badlabel",
        Refusal::BadVersion => b"badversion",
        Refusal::NoCaller => b"nocaller",
        Refusal::NotAllowed => b"notallowed",
        Refusal::NotOwner => b"notowner",
        Refusal::Clash { .. } => b"clash",
        Refusal::Stale => b"stale",
        Refusal::Exists => b"exists",
        Refusal::NotFound => b"notfound",
        Refusal::OldCursor => b"oldcursor",
        Refusal::Ahead => b"ahead",
        Refusal::Behind => b"behind",
        Refusal::Full => b"full",
        Refusal::Worn => b"worn",
        Refusal::NoRoom => b"noroom",
        Refusal::BadRing => b"badring",
        Refusal::BadFirst => b"badfirst",
    }
}

// Appends the line of what is owed, if anything is.
fn append_owed(buffer: &mut Vec<u8>, mask: u128, limits: Limits) -> Result<(), NoRoom>
    ensures written { OnOk result (buffer.new.items ≡ buffer.old.items ++ owed_line limits mask) }
    ensures unchanged { OnErr result (buffer.new.items ≡ buffer.old.items) }
{
    if mask == 0 {
        return Ok(());
    }
    // A byte has the bits of eight subscriptions; the last bytes have those of the first subscriptions.
    let count = limits.subs() as usize / 8;
    append_mask(buffer, &mask.to_be_bytes(), 16 - count)
}

// Appends the line of a mask, from its byte `first` on.
fn append_mask(buffer: &mut Vec<u8>, bytes: &[u8; 16], first: usize) -> Result<(), NoRoom>
    requires { first ≤ 16 }
    ensures written { OnOk result (buffer.new.items
        ≡ buffer.old.items ++ with_newline (codes "owed " ++ encode_lower (drop first bytes.now))) }
    ensures unchanged { OnErr result (buffer.new.items ≡ buffer.old.items) }
{
    let bytes = &bytes[first..];
    let mut block = [0u8; 32];
    let digits = &mut block[..2 * bytes.len()];
    match hex::encode_to_slice(bytes, digits) {
        Ok(()) => append_all(buffer, &[b"owed ", digits, b"\n"]),
        Err(_) => unreachable!(),
    }
}
