//! The kind of a text that was given where another kind is read.

use crate::meant::COMMANDS;
use ds_names::{is_name_byte, read_decimal};
use std::fmt;

/// The kinds of texts that `dsctl` reads.
#[derive(Clone, Copy, PartialEq, Eq)]
pub enum TextKind {
    Script,
    Trace,
    Settings,
    Commands,
    Answers,
}

/// The words that answers begin with. Neither commands nor names of settings are among them.
const ANSWERS: [&str; 17] = [
    "taken",
    "known",
    "stale",
    "refused",
    "found",
    "named",
    "swept",
    "subscribed",
    "checked",
    "merged",
    "stopped",
    "restarted",
    "cleared",
    "shown",
    "assigned",
    "actions",
    "moves",
];

impl TextKind {
    /// Returns the kind of the text with this front, by its first line that is neither empty nor a comment. Returns
    /// `None` without such a line, or if it fits no kind.
    pub fn of(text: &[u8]) -> Option<TextKind> {
        for line in text.split(|byte| *byte == b'\n') {
            if !is_note(line) {
                return TextKind::of_line(line.trim_ascii());
            }
        }
        None
    }

    /// Returns the kind of the text that begins with this line, without leading spaces, or `None` if it fits no kind.
    pub fn of_line(line: &[u8]) -> Option<TextKind> {
        let (word, rest) = word_at(line);
        if word == b"trace".as_slice() && rest.starts_with(b" ") {
            return Some(TextKind::Trace);
        }
        if is_command(word) || (word == b"script".as_slice() && rest.starts_with(b" ")) {
            return Some(TextKind::Script);
        }
        if begins_settings(line) {
            return Some(TextKind::Settings);
        }
        if ANSWERS.iter().any(|it| it.as_bytes() == word) {
            return Some(TextKind::Answers);
        }
        match read_decimal(line, 63) {
            Some((_, rest)) if has_command(rest) => Some(TextKind::Commands),
            _ => None,
        }
    }
}

impl fmt::Display for TextKind {
    fn fmt<W: fmt::Write>(&self, f: &mut fmt::Formatter<W>) -> fmt::Result {
        f.write_str(match self {
            TextKind::Script => "this is a script: `dsctl replay` answers it",
            TextKind::Trace => "this is a trace: `dsctl verify` judges it",
            TextKind::Settings => "these are settings: `dsctl settings` shows them",
            TextKind::Commands =>
                "these are commands: `dsctl record` writes the trace of their run",
            TextKind::Answers => "these are answers: a script has the lines that they answer",
        })
    }
}

/// Returns whether a line is blank or a comment. Spaces may come before its `#`.
pub(crate) fn is_note(line: &[u8]) -> bool {
    matches!(line.trim_ascii().first().copied(), None | Some(b'#'))
}

// Returns the word at the front of a line, and what comes after it.
fn word_at(line: &[u8]) -> (&[u8], &[u8]) {
    let count = line.iter().take_while(|byte| is_name_byte(**byte)).count();
    line.split_at(count)
}

fn is_command(word: &[u8]) -> bool {
    COMMANDS.iter().any(|it| it.as_bytes() == word)
}

// Whether a space and a command come next.
fn has_command(rest: &[u8]) -> bool {
    match rest.strip_prefix(b" ") {
        Some(text) => {
            let (word, _) = word_at(text);
            is_command(word)
        }
        None => false,
    }
}

// Whether a line is the header of a table, or assigns a field.
fn begins_settings(line: &[u8]) -> bool {
    if line.starts_with(b"[") {
        return true;
    }
    let (word, rest) = word_at(line);
    !word.is_empty() && rest.trim_ascii().starts_with(b"=")
}
