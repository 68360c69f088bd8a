//! What a refusal means, in one line.

use crate::help_words::AFTER_HELP;
use crate::rows::{between, text_of, word_of_row};
use std::io::{self, Write};
use std::rt::Runtime;

// The titles of the help's refusals.
const REFUSALS_BEGIN: &str = "Words after `refused`";

const RS_BEGINS: &str = "For lines to RS:\n";

const SETTINGS_BEGIN: &str = "For settings, `exists`";

const SERVERS_BEGIN: &str = "For the file server's";

const REFUSALS_END: &str = "Exit status:\n";

const SETTINGS_EXIST: &str = "settings were accepted already: RS begins once";

/// The sort of line that was refused: a word may mean something else for each.
#[derive(Clone, Copy, PartialEq, Eq)]
pub enum Topic {
    /// A line to a store or a map.
    Store,
    /// A line to RS.
    Rs,
    /// The line of settings.
    Settings,
    /// A line to a file server or a network server.
    Servers,
}

impl Topic {
    /// Returns the sort of a line that begins with this word.
    pub(crate) fn of(word: &[u8]) -> Topic {
        if is_among(word, &["service", "death", "beat", "tick"]) {
            Topic::Rs
        } else if is_among(word, &["assign", "follow", "submit", "reply"]) {
            Topic::Servers
        } else if is_among(word, &["settings"]) {
            Topic::Settings
        } else {
            Topic::Store
        }
    }

    // Returns the help's rows for this sort of line alone.
    fn rows(self) -> &'static str {
        match self {
            Topic::Store => between(AFTER_HELP, REFUSALS_BEGIN, RS_BEGINS),
            Topic::Rs => between(AFTER_HELP, RS_BEGINS, SETTINGS_BEGIN),
            Topic::Settings => between(AFTER_HELP, SETTINGS_BEGIN, SERVERS_BEGIN),
            Topic::Servers => between(AFTER_HELP, SERVERS_BEGIN, REFUSALS_END),
        }
    }
}

fn is_among(word: &[u8], words: &[&str]) -> bool {
    words.iter().any(|it| it.as_bytes() == word)
}

/// Returns all rows of refusals.
pub(crate) fn all_refusals() -> &'static str {
    between(AFTER_HELP, REFUSALS_BEGIN, REFUSALS_END)
}

/// Writes to standard error, in one line, what each refusal among these answers means.
pub(crate) fn explain_refusals(rt: &impl Runtime, topic: Topic, answers: &[u8]) {
    for line in answers.split(|byte| *byte == b'\n') {
        if let Some(word) = refusal_in(line) {
            explain_refusal(rt, topic, word);
        }
    }
}

// Returns the word of a refusal: after `refused`, or after `stopped` and a number.
fn refusal_in(line: &[u8]) -> Option<&[u8]> {
    let mut parts = line.split(|byte| *byte == b' ');
    let first = parts.next()?;
    if first == b"refused".as_slice() {
        return parts.next();
    }
    if first == b"stopped".as_slice() {
        parts.next()?;
        return parts.next();
    }
    None
}

// Writes what a word means for this sort of line.
fn explain_refusal(rt: &impl Runtime, topic: Topic, word: &[u8]) {
    if topic == Topic::Settings && word == b"exists".as_slice() {
        let _ = eprintln!(rt; "dsctl: exists: {SETTINGS_EXIST}");
    } else if !explain_row(rt, topic.rows(), word) {
        let _ = explain_row(rt, Topic::Store.rows(), word);
    }
}

// Writes the row of a word as one line, and returns whether there is one.
fn explain_row(rt: &impl Runtime, rows: &'static str, word: &[u8]) -> bool {
    let mut is_found = false;
    for line in rows.lines() {
        if is_found {
            if !line.starts_with("   ") {
                break;
            }
            let more = line.trim();
            let _ = eprint!(rt; " {more}");
        } else if let Some(first) = word_of_row(line) {
            if first.as_bytes() == word {
                is_found = true;
                let text = text_of(line);
                let _ = eprint!(rt; "dsctl: {first}: {text}");
            }
        }
    }
    if is_found {
        let _ = rt.eprintln("");
    }
    is_found
}
