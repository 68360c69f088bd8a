//! Explains a line that can't be read: which part was expected.

use crate::bad_part::{BadPart, say_at, say_kind_at};
use crate::found::Found;
use ds_line::{Expected, word_at};
use ds_script::BadLine;
use std::rt::Runtime;
use typed_text::{COMMANDS, Meant, Plain, TextKind, nearest};

/// How many bytes of a line are shown before the bad place.
const BEFORE: usize = 48;

/// How many are shown from it on.
const FROM: usize = 28;

/// The reader of an explanation.
#[derive(Clone, Copy, PartialEq, Eq)]
pub enum Audience {
    /// A file or a program: one line.
    File,
    /// A terminal: the line and a caret above the sentence.
    Terminal,
    /// A prompt, where the user can ask for help.
    Prompt,
}

/// Writes to standard error which part was expected where a line can't be read; at a terminal, below the line and a
/// caret. `kind` is that of the whole text. A failed write is ignored.
pub fn explain(
    rt: &(impl Runtime + AllocGlobal),
    audience: Audience,
    bad: &BadLine<'_>,
    kind: Option<TextKind>,
) {
    if audience != Audience::File {
        show_place(rt, bad);
    }
    let part = BadPart {
        number: bad.number,
        text: bad.text,
        place: bad.place,
        expected: bad.expected,
        before: 0,
        added: 0,
    };
    if explain_kind(rt, bad, kind) {
        return;
    }
    match note_at(bad).or(part.stray()) {
        Some(stray) => part.say(rt, stray),
        None if bad.expected == Expected::Command => {
            explain_word(rt, audience, bad.number, bad.text);
        }
        None => part.explain(rt),
    }
}

// Explains a line without a command that is of another kind of text: any line of commands to record, any header of a
// trace, and the first line of a text of this kind. Returns whether it is.
fn explain_kind(rt: &impl Runtime, bad: &BadLine<'_>, kind: Option<TextKind>) -> bool {
    if bad.expected != Expected::Command {
        return false;
    }
    let number = bad.number;
    let of_line = TextKind::of_line(bad.text).filter(|it| matches!(
        it,
        TextKind::Commands | TextKind::Trace
    ));
    match of_line.or(kind.filter(|_| number == 1)) {
        Some(kind) if kind != TextKind::Script => {
            say_kind_at(rt, number, kind);
            true
        }
        _ => false,
    }
}

const NOTE_WITHIN: &str =
    "the end of the line was expected; a comment was found: each has a line of its own, after `script 2` as the first line";

const NOTE_AFTER_SPACE: &str = "\
    a command was expected; a space and a comment were found: `#` is the first byte of a comment's line, \
    after `script 2` as the first line";

const ONLY_SPACES: &str =
    "a command was expected; only spaces were found: an empty line has none, after `script 2` as the first line";

const ONLY_SCRIPT_2: &str = "only `script 2` is allowed, as the first line";

// Returns a sentence about a comment, or an empty line, that isn't where format 2 has them.
fn note_at(bad: &BadLine<'_>) -> Option<&'static str> {
    let rest = bad.text.get(bad.place..).unwrap_or(&[]);
    let inner = rest.trim_ascii_start();
    match (bad.expected, inner.first().copied()) {
        (Expected::End, Some(b'#')) => Some(NOTE_WITHIN),
        (Expected::Command, Some(b'#')) if inner.len() < rest.len() => Some(NOTE_AFTER_SPACE),
        (Expected::Command, None) if rest.starts_with(b" ") => Some(ONLY_SPACES),
        _ => None,
    }
}

// Shows the line, as far as it fits, and a caret under the place.
fn show_place(rt: &impl Runtime, bad: &BadLine<'_>) {
    let place = bad.place.min(bad.text.len());
    let first = place.saturating_sub(BEFORE);
    let shown = bad.text.get(first..).unwrap_or(&[]);
    let line = Plain(&shown[..shown.len().min(BEFORE + FROM)]);
    let _ = eprintln!(rt; "  {line}");
    let column = place.saturating_sub(first) + 3;
    let _ = eprintln!(rt; "{:>column$}", '^');
}

// Explains a word that no line begins with.
fn explain_word(rt: &impl Runtime, audience: Audience, number: u64, text: &[u8]) {
    let help = match audience {
        Audience::Prompt => "help",
        _ => "--help",
    };
    let (word, _) = word_at(text);
    if word.is_empty() {
        let found = Found(text);
        let _ = eprintln!(rt;
            "dsctl: line {number}, byte 0: a command was expected; {found} was found: see {help}"
        );
        return;
    }
    if word == b"script".as_slice() {
        return explain_script(rt, number, text);
    }
    if let Some(command) = SUBCOMMANDS.iter().find(|it| it.as_bytes() == word) {
        let _ = eprintln!(rt;
            "dsctl: line {number}, byte 0: `{command}` is for the command line: dsctl {command}"
        );
        return;
    }
    if audience != Audience::Prompt && is_prompts_own(word) {
        let shown = Plain(word);
        let _ = eprintln!(rt;
            "dsctl: line {number}, byte 0: `{shown}` is a line of the prompt at a terminal only: see {help}"
        );
        return;
    }
    match nearest(word, &COMMANDS) {
        Some(command) if command.as_bytes() == word => explain_first(rt, number, command),
        near => explain_unknown(rt, number, word, near, help),
    }
}

// Explains a line that is meant to name the format of a script.
fn explain_script(rt: &impl Runtime, number: u64, text: &[u8]) {
    match text.strip_prefix(b"script 2") {
        Some(rest) if number == 1 && !rest.is_empty() => {
            let found = Found(rest);
            let _ = eprintln!(rt;
                "dsctl: line {number}, byte 0: `script 2` was expected, and the end of the line; {found} was found after it"
            );
        }
        _ => say_at(rt, number, 0, ONLY_SCRIPT_2),
    }
}

/// The words of the command line that no line begins with.
const SUBCOMMANDS: [&str; 5] = ["replay", "verify", "upgrade", "record", "live"];

// Whether only the prompt has lines that begin with a word.
fn is_prompts_own(word: &[u8]) -> bool {
    [b"help".as_slice(), b"quit".as_slice(), b"exit".as_slice()]
        .iter()
        .any(|own| word.eq_ignore_ascii_case(own))
}

// Explains a command that is allowed on the first line only.
fn explain_first(rt: &impl Runtime, number: u64, command: &str) {
    let _ = eprintln!(rt;
        "dsctl: line {number}, byte 0: `{command}` is allowed on the first line only"
    );
}

// Explains a word that isn't a command, with what it may mean.
fn explain_unknown(
    rt: &impl Runtime,
    number: u64,
    word: &[u8],
    near: Option<&'static str>,
    help: &str,
) {
    let shown = Plain(&word[..word.len().min(FROM)]);
    let meant = Meant::of(word, near);
    let _ = eprintln!(rt;
        "dsctl: line {number}, byte 0: `{shown}` isn't a command{meant}: see {help}"
    );
}
