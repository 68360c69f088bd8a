//! Explains where a recording or an upgrade ended before its input did.

use crate::bad_part::{say_at, say_found_at, say_kind_at};
use crate::header::Formats;
use crate::trace_fault::explain_wrong;
use crate::trace_line::{
    begins_command, explain_asked, explain_command, explain_item, is_of_no_store,
};
use ds_names::{read_byte, read_decimal};
use line_io::LONGEST_LINE;
use std::rt::Runtime;
use trace_check::{Stands, UpgradeFault, Wanted, WrongLine};
use typed_text::TextKind;

/// The greatest pass.
const LAST_PASS: u64 = 63;

const ITEM_WANTED: &str =
    "a command was expected, or after `merge N` an item, `+ CHANGE` or `+ FLOOR`";

const ITEM_MISSING: &str = "an item was expected, `+ CHANGE` or `+ FLOOR`";

const ITEM_MISSING_AT_END: &str = "an item was expected, `+ CHANGE` or `+ FLOOR`; the input ended";

const TOO_LONG: &str = "a trace's line has at most 4096 bytes";

const COMMENT: &str = "a command was expected; a comment was found, and commands have none";

const PASS_WANTED: &str =
    "a command was expected, perhaps after PASS, 0 to 63 with no leading zero, and a space";

/// Writes to standard error which part of a line of commands can't be read. `text` is the line with its newline, if it
/// was read, and what comes after it as far as that is kept; `place` is the part's first byte. A failed write is ignored.
pub fn explain_recorded(
    rt: &(impl Runtime + AllocGlobal),
    number: u64,
    place: usize,
    text: Option<&[u8]>,
) {
    let kind = match text {
        Some(text) if number == 1 => TextKind::of(text),
        _ => None,
    };
    let Some(text) = first_line(text) else {
        return say_at(rt, number, place, ITEM_MISSING_AT_END);
    };
    if place == 0 {
        explain_front(rt, number, text, kind);
    } else if text.len() > LONGEST_LINE + 1 || !explain_line(rt, number, place, text) {
        say_at(rt, number, place, TOO_LONG);
    }
}

// Explains a line that is bad from its first byte on: no command begins so, or an item was expected.
fn explain_front(
    rt: &(impl Runtime + AllocGlobal),
    number: u64,
    text: &[u8],
    kind: Option<TextKind>,
) {
    match kind {
        Some(kind @ (TextKind::Trace | TextKind::Settings)) => say_kind_at(rt, 1, kind),
        Some(kind @ TextKind::Script) if text.starts_with(b"script ") => say_kind_at(rt, 1, kind),
        _ if text.starts_with(b"#") => say_at(rt, number, 0, COMMENT),
        _ if text.starts_with(b"+") => say_found_at(rt, number, 0, ITEM_WANTED, text),
        _ if after_pass(text).is_some() || begins_command(text) => {
            say_found_at(rt, number, 0, ITEM_MISSING, text);
        }
        _ if text.first().is_some_and(|byte| byte.is_ascii_digit()) => {
            say_found_at(rt, number, 0, PASS_WANTED, text);
        }
        _ => {
            let _ = explain_asked(rt, number, text, 0);
        }
    }
}

// Returns the first line of a text, with its newline.
fn first_line(text: Option<&[u8]>) -> Option<&[u8]> {
    let text = text?;
    match text.iter().position(|byte| *byte == b'\n') {
        Some(place) => text.get(..=place),
        None => Some(text),
    }
}

// Returns what follows a pass and a space at the front of a line.
fn after_pass(text: &[u8]) -> Option<&[u8]> {
    let (_, rest) = read_decimal(text, LAST_PASS)?;
    read_byte(rest, b' ')
}

// Explains a line of commands: an item, or a command, perhaps after a pass. Returns whether a part of it is bad.
fn explain_line(rt: &(impl Runtime + AllocGlobal), number: u64, place: usize, text: &[u8]) -> bool {
    if text.starts_with(b"+ ") {
        return explain_item(rt, number, text);
    }
    if number == 1 && text.starts_with(b"ring") {
        return explain_command(rt, number, text, 0, 0);
    }
    let command = after_pass(text).unwrap_or(text);
    let before = text.len().saturating_sub(command.len());
    if place > before && is_of_no_store(command) {
        return explain_command(rt, number, command, before, 0);
    }
    explain_asked(rt, number, command, before)
}

/// Writes to standard error why a trace can't be upgraded; nothing if it can, or if memory, reading or writing failed.
/// `text` is the line with its newline, if it was read, and what comes after it as far as that is kept. A failed write is
/// ignored.
pub fn explain_upgrade(
    rt: &(impl Runtime + AllocGlobal),
    fault: UpgradeFault,
    text: Option<&[u8]>,
) {
    let kind = match text {
        Some(text) => TextKind::of(text),
        None => None,
    };
    let text = first_line(text);
    let (number, wanted) = match fault {
        UpgradeFault::IllegalAt(number) => (number, Wanted::Reply),
        UpgradeFault::BadLineAt(number) => (number, wanted_at(number, text)),
        UpgradeFault::AlreadyTwo => {
            let _ = rt.eprintln("dsctl: line 1: the trace is of format 2 already");
            return;
        }
        _ => return,
    };
    let stands = match text {
        Some(line) => Stands::Line(line),
        None => Stands::Nothing,
    };
    let wrong = WrongLine {
        number,
        wanted,
        stands,
        asked: &[],
        reply: None,
    };
    explain_wrong(rt, &wrong, Formats::Older, kind);
}

// Returns the sort of line that was expected instead of a bad one.
fn wanted_at(number: u64, text: Option<&[u8]>) -> Wanted {
    match text {
        _ if number == 1 => Wanted::Header,
        Some(line) if line.starts_with(b"+") => Wanted::Item,
        _ => Wanted::Entry,
    }
}
