//! Explains a trace that isn't legal, by its first wrong line.

use crate::found::Found;
use crate::header::{Formats, explain_header};
use crate::stray::BYTE_ORDER_MARK;
use crate::trace_line::{explain_marked, without_newline};
use std::fmt;
use std::rt::Runtime;
use trace_check::{Stands, Wanted, WrongLine};
use typed_text::{Plain, TextKind};

/// Writes to standard error which line a trace was expected to have, and which it has. For a header, and for a line with the expected
/// mark of an entry or of an item, it writes which part is bad instead. `kind` is the kind of the whole text, if known; only the
/// sentence about line 1 names it. A failed write is ignored.
pub fn explain_trace(
    rt: &(impl Runtime + AllocGlobal),
    wrong: &WrongLine<'_>,
    kind: Option<TextKind>,
) {
    explain_wrong(rt, wrong, Formats::Both, kind);
}

/// Like `explain_trace`, for a trace whose header has one of these formats.
pub(crate) fn explain_wrong(
    rt: &(impl Runtime + AllocGlobal),
    wrong: &WrongLine<'_>,
    formats: Formats,
    kind: Option<TextKind>,
) {
    if wrong.wanted == Wanted::Header {
        return explain_first(rt, wrong.stands, formats, kind);
    }
    if explain_marked(rt, wrong) || explain_unmarked(rt, wrong) {
        return;
    }
    let number = wrong.number;
    let wanted = WantedThere(*wrong);
    let stood = StoodThere(*wrong);
    let _ = eprintln!(rt; "dsctl: line {number}: {wanted}{stood}");
}

/// The marks of a trace's lines below its header.
const MARKS: [&str; 3] = ["> ", "+ ", "< "];

// Explains a line without any mark in the place of a reply. Returns whether it is one.
fn explain_unmarked(rt: &impl Runtime, wrong: &WrongLine<'_>) -> bool {
    let (Wanted::Reply, Stands::Line(line)) = (wrong.wanted, wrong.stands) else {
        return false;
    };
    if MARKS.iter().any(|mark| line.starts_with(mark.as_bytes())) {
        return false;
    }
    let number = wrong.number;
    let reply = ReplyThere(*wrong);
    let found = Found(line);
    let _ = eprintln!(rt;
        "dsctl: line {number}, byte 0: `< ` was expected, and then {reply}; {found} was found"
    );
    true
}

// The reply that was expected.
#[derive(Clone, Copy)]
struct ReplyThere<'a>(WrongLine<'a>);

impl fmt::Display for ReplyThere<'_> {
    fn fmt<W: fmt::Write>(&self, f: &mut fmt::Formatter<W>) -> fmt::Result {
        if self.0.asked.is_empty() {
            return f.write_str("the store's reply");
        }
        let asked = Plain(command_of(self.0.asked));
        match self.0.reply {
            Some(reply) => {
                let reply = Plain(without_newline(reply));
                write!(f, "the reply to {asked}, \"{reply}\"")
            }
            None => write!(f, "the reply to {asked}"),
        }
    }
}

// What was expected.
#[derive(Clone, Copy)]
struct WantedThere<'a>(WrongLine<'a>);

impl fmt::Display for WantedThere<'_> {
    fn fmt<W: fmt::Write>(&self, f: &mut fmt::Formatter<W>) -> fmt::Result {
        let asked = Plain(command_of(self.0.asked));
        let is_known = !self.0.asked.is_empty();
        match (self.0.wanted, self.0.reply) {
            (Wanted::Header, _) => f.write_str("a header was expected"),
            (Wanted::Entry, _) => f.write_str(ENTRY),
            (Wanted::Item, _) if is_known => write!(
                f,
                "an item of {asked} was expected, `+ CHANGE` or `+ FLOOR`"
            ),
            (Wanted::Item, _) => f.write_str(ITEM),
            (Wanted::Reply, Some(reply)) => {
                let reply = Plain(without_newline(reply));
                write!(f, "the reply to {asked} is \"{reply}\"")
            }
            (Wanted::Reply, None) if is_known => write!(f, "the reply to {asked} was expected"),
            (Wanted::Reply, None) => f.write_str(REPLY),
        }
    }
}

const ENTRY: &str = "an entry was expected, `> PASS COMMAND`";

const ITEM: &str = "an item was expected, `+ CHANGE` or `+ FLOOR`";

const REPLY: &str = "the store's reply was expected, which `dsctl verify` names";

// Explains the first line of a text, which isn't a header.
fn explain_first(rt: &impl Runtime, stands: Stands<'_>, formats: Formats, kind: Option<TextKind>) {
    let line = match stands {
        Stands::Line(line) => line,
        Stands::Nothing | Stands::Long => &[],
    };
    if explain_header(rt, line, formats) {
        return;
    }
    let first = First {
        line,
        formats,
        kind,
    };
    let _ = eprintln!(rt; "dsctl: line 1: a header was expected{first}");
}

/// How many bytes of a first line are shown.
const SHOWN: usize = 96;

// A first line that doesn't begin as a header.
#[derive(Clone, Copy)]
struct First<'a> {
    line: &'a [u8],
    formats: Formats,
    kind: Option<TextKind>,
}

impl fmt::Display for First<'_> {
    fn fmt<W: fmt::Write>(&self, f: &mut fmt::Formatter<W>) -> fmt::Result {
        if self.line.starts_with(BYTE_ORDER_MARK) {
            return f.write_str("; a byte order mark was found");
        }
        match self.kind {
            Some(TextKind::Trace) | None => {}
            Some(kind) => return write!(f, "; {kind}"),
        }
        if self.line.starts_with(b"#") {
            return f.write_str("; a comment was found, and a trace has none");
        }
        let header = self.formats.header();
        if self.line.is_empty() {
            return write!(f, ", {header}, and the trace is empty");
        }
        let line = without_newline(self.line);
        let shown = Plain(&line[..line.len().min(SHOWN)]);
        write!(f, ", {header}, not \"{shown}\"")
    }
}

// What was found.
#[derive(Clone, Copy)]
struct StoodThere<'a>(WrongLine<'a>);

impl fmt::Display for StoodThere<'_> {
    fn fmt<W: fmt::Write>(&self, f: &mut fmt::Formatter<W>) -> fmt::Result {
        match (self.0.wanted, self.0.stands) {
            (Wanted::Header, _) => Ok(()),
            (_, Stands::Nothing) => f.write_str(", and the trace ends"),
            (_, Stands::Long) => f.write_str(", not a line above 4096 bytes"),
            (wanted, Stands::Line(line)) => {
                let (line, end) = without_return(without_newline(line));
                let line = Plain(told_of(wanted, line));
                write!(f, ", not \"{line}\"{end}")
            }
        }
    }
}

// Splits a carriage return off the end of a line without its newline. Returns the rest, and words for the carriage return, or "".
fn without_return(line: &[u8]) -> (&[u8], &'static str) {
    match line.strip_suffix(b"\r") {
        Some(front) => (front, " and a carriage return"),
        None => (line, ""),
    }
}

// Returns what is quoted of a line: of a reply, what comes after its mark.
fn told_of(wanted: Wanted, line: &[u8]) -> &[u8] {
    match (wanted, line.strip_prefix(b"< ")) {
        (Wanted::Reply, Some(reply)) => reply,
        _ => line,
    }
}

// Returns the command of an entry's first line: what comes after the mark and the pass.
fn command_of(line: &[u8]) -> &[u8] {
    let line = without_newline(line);
    let mut rest = line;
    for _part in 0..2 {
        rest = match rest.iter().position(|byte| *byte == b' ') {
            Some(place) => &rest[place + 1..],
            None => return line,
        };
    }
    rest
}
