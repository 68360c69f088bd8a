//! Explains a trace's line that has the mark of an entry or of an item, but is bad.

use crate::bad_part::{BadPart, say_at, say_found_at};
use crate::wanted::wanted;
use ds_line::{Expected, word_at};
use ds_names::limits::MOST_ITEMS;
use ds_names::{read_byte, read_decimal};
use line_io::{LONGEST_LINE, split_line};
use script_commands::{CommandFault, ScriptCommand, read_line};
use std::rt::Runtime;
use trace_check::{Stands, Wanted, WrongLine};
use typed_text::{COMMANDS, Meant, Plain, nearest};

/// The commands of a store.
const ASKED: [&str; 12] = [
    "publish",
    "delete",
    "sweep",
    "retrieve",
    "nameof",
    "subscribe",
    "check",
    "since",
    "snapshot",
    "page",
    "offer",
    MERGE,
];

const MERGE: &str = "merge";

/// The greatest pass.
const LAST_PASS: u64 = 63;

/// The word before an item in a script.
const OFFER: &[u8] = b"offer ";

/// How many bytes of a word are shown.
const SHOWN: usize = 28;

const PASS_WANTED: &str = "PASS was expected, 0 to 63 with no leading zero";

const COMMAND_WANTED: &str = "a space was expected, and then a command";

const COUNT_WANTED: &str = "N was expected, 0 to 256 with no leading zero";

const SPACE_WANTED: &str = "a space was expected, and then N";

const SPACE_TOO_MANY: &str = "a command was expected; a space was found";

const FLOOR: &str = "a floor was found, and a trace of format 1 has none";

/// Writes which part of a line is bad, if the line has the expected mark. Returns whether it did.
pub(crate) fn explain_marked(rt: &(impl Runtime + AllocGlobal), wrong: &WrongLine<'_>) -> bool {
    match (wrong.wanted, wrong.stands) {
        (Wanted::Entry, Stands::Line(line)) => explain_entry(rt, wrong.number, line),
        (Wanted::Item, Stands::Line(line)) => explain_item(rt, wrong.number, line),
        _ => false,
    }
}

// Explains an entry's first line: its mark, its pass and its command.
fn explain_entry(rt: &(impl Runtime + AllocGlobal), number: u64, line: &[u8]) -> bool {
    let Some(marked) = line.strip_prefix(b"> ") else {
        return false;
    };
    let Some((_, rest)) = read_decimal(marked, LAST_PASS) else {
        say_found_at(rt, number, 2, PASS_WANTED, marked);
        return true;
    };
    let before = line.len().saturating_sub(rest.len());
    match read_byte(rest, b' ') {
        Some(text) => explain_asked(rt, number, text, before.saturating_add(1)),
        None => {
            say_found_at(rt, number, before, COMMAND_WANTED, rest);
            true
        }
    }
}

/// Explains an entry's command, after `before` bytes of the line. Returns whether a part of it is bad.
pub(crate) fn explain_asked(
    rt: &(impl Runtime + AllocGlobal),
    number: u64,
    text: &[u8],
    before: usize,
) -> bool {
    let (word, rest) = word_at(text);
    if word == MERGE.as_bytes() {
        explain_merge(rt, number, rest, before.saturating_add(MERGE.len()));
        return true;
    }
    if is_among(word, &ASKED) {
        return explain_command(rt, number, text, before, 0);
    }
    if read_byte(text, b' ').is_some() {
        say_at(rt, number, before, SPACE_TOO_MANY);
    } else {
        explain_word(rt, number, word, text, before);
    }
    true
}

/// Whether a text begins with the word of a store's command.
pub(crate) fn begins_command(text: &[u8]) -> bool {
    let (word, _) = word_at(text);
    is_among(word, &ASKED)
}

/// Whether a text begins with the word of a script's command that isn't a store's.
pub(crate) fn is_of_no_store(text: &[u8]) -> bool {
    let (word, _) = word_at(text);
    is_among(word, &COMMANDS) && !is_among(word, &ASKED)
}

// Explains what comes after the word `merge`.
fn explain_merge(rt: &impl Runtime, number: u64, rest: &[u8], before: usize) {
    let Some(count) = read_byte(rest, b' ') else {
        return say_found_at(rt, number, before, SPACE_WANTED, rest);
    };
    let before = before.saturating_add(1);
    match read_decimal(count, MOST_ITEMS as u64) {
        None => say_found_at(rt, number, before, COUNT_WANTED, count),
        Some((_, end)) => {
            let place = before.saturating_add(count.len().saturating_sub(end.len()));
            say_found_at(rt, number, place, wanted(Expected::End), end);
        }
    }
}

// Explains a word that isn't a command of a store, at a byte of the line.
fn explain_word(rt: &impl Runtime, number: u64, word: &[u8], text: &[u8], place: usize) {
    let shown = Plain(&word[..word.len().min(SHOWN)]);
    if word.is_empty() {
        say_found_at(rt, number, place, "a command was expected", text);
    } else if is_among(word, &COMMANDS) {
        let _ = eprintln!(rt;
            "dsctl: line {number}, byte {place}: `{shown}` isn't a store's command"
        );
    } else {
        let meant = Meant::among(word, nearest(word, &ASKED), &ASKED);
        let _ = eprintln!(rt;
            "dsctl: line {number}, byte {place}: `{shown}` isn't a command{meant}"
        );
    }
}

fn is_among(word: &[u8], words: &[&str]) -> bool {
    words.iter().any(|it| it.as_bytes() == word)
}

/// Explains an item's line: the item, read as a script's offer. Returns whether it did.
pub(crate) fn explain_item(rt: &(impl Runtime + AllocGlobal), number: u64, line: &[u8]) -> bool {
    let Some(item) = line.strip_prefix(b"+ ") else {
        return false;
    };
    let count = item.len();
    if count > LONGEST_LINE {
        return false;
    }
    let mut block = [b'\n'; LONGEST_LINE + OFFER.len() + 1];
    block[..OFFER.len()].copy_from_slice(OFFER);
    block[OFFER.len()..OFFER.len() + count].copy_from_slice(item);
    explain_command(rt, number, &block, 2, OFFER.len())
}

/// Explains a command with its newline, after `before` bytes of the line, where `added` bytes at its front aren't in the
/// line. If it can be read, its item is one that the trace's format doesn't have. Returns whether it did.
pub(crate) fn explain_command(
    rt: &(impl Runtime + AllocGlobal),
    number: u64,
    text: &[u8],
    before: usize,
    added: usize,
) -> bool {
    let Some((line, _)) = split_line(text) else {
        return false;
    };
    let (place, expected) = match read_line(rt.alloc(), line) {
        Err(CommandFault::BadLine { place, expected }) => (place, expected),
        Ok(ScriptCommand::Offer(_)) => {
            let place = before.saturating_add(OFFER.len()).saturating_sub(added);
            say_at(rt, number, place, FLOOR);
            return true;
        }
        _ => return false,
    };
    let part = BadPart {
        number,
        text: without_newline(line),
        place,
        expected,
        before,
        added,
    };
    match part.stray() {
        Some(stray) => part.say(rt, stray),
        None => part.explain(rt),
    }
    true
}

/// Returns a line without its newline.
pub(crate) fn without_newline(line: &[u8]) -> &[u8] {
    match line.strip_suffix(b"\n") {
        Some(front) => front,
        None => line,
    }
}
