//! The help about one word: a line, an answer, a part of these, a refusal or a kind.

use crate::help::LONG_ABOUT;
use crate::refusals::all_refusals;
use crate::rows::{between, word_of_row};
use std::io;
use std::rt::Runtime;
use typed_text::{Meant, Plain, Search};

// The texts before the rows of each sort, which must be in the help exactly so, and the text after any of them.
const LINES_BEGIN: &str = "Lines of a script:\n";

const ANSWERS_BEGIN: &str = "Answers:\n";

const PARTS_BEGIN: &str = "Parts of lines and answers:\n";

const KINDS_BEGIN: &str = "kinds and their values:\n";

const PARAGRAPH_ENDS: &str = "\n\n";

/// The subcommands, which the command line's help has pages for.
const SUBCOMMANDS: [&str; 6] = ["replay", "settings", "verify", "upgrade", "record", "live"];

/// How many bytes of an unknown word are shown.
const SHOWN: usize = 28;

/// The stream that rows are written to.
#[derive(Clone, Copy)]
pub(crate) enum Stream {
    Output,
    Error,
}

/// Writes the help's rows about a word to standard error; for an unknown word, a sentence with the nearest known one.
/// A failed write is ignored.
pub(crate) fn explain_word(rt: &impl Runtime, word: &[u8]) {
    let mut search = Search::to(word);
    if let Ok(false) = print_word(rt, Stream::Error, word, &mut search) {
        if let Some(command) = SUBCOMMANDS.iter().find(|it| it.as_bytes() == word) {
            let _ = eprintln!(rt;
                "dsctl: `{command}` is for the command line: see dsctl {command} --help"
            );
            return;
        }
        let shown = Plain(&word[..word.len().min(SHOWN)]);
        let meant = Meant::of(word, search.found());
        let _ = eprintln!(rt;
            "dsctl: `{shown}` isn't a line, an answer, a refusal or a kind{meant}: see help"
        );
    }
}

/// Prints the help's rows about a word of the command line, and returns whether there are any. For an unknown word,
/// writes a sentence to standard error with the nearest known one.
pub(crate) fn print_explained(rt: &impl Runtime, word: &[u8]) -> io::Result<bool> {
    let mut search = Search::to(word);
    for it in SUBCOMMANDS {
        search.compare(it);
    }
    let is_known = print_word(rt, Stream::Output, word, &mut search)?;
    if !is_known {
        tell_unknown(rt, word, search.found());
    }
    Ok(is_known)
}

fn tell_unknown(rt: &impl Runtime, word: &[u8], near: Option<&'static str>) {
    let shown = Plain(&word[..word.len().min(SHOWN)]);
    let meant = Meant::of(word, near);
    let _ = eprintln!(rt;
        "dsctl: `{shown}` isn't a command, a line, an answer, a refusal or a kind{meant}: see dsctl --help"
    );
}

// Writes the help's rows about a word, and returns whether there are any. Offers each row's word to the search.
fn print_word(
    rt: &impl Runtime,
    stream: Stream,
    word: &[u8],
    search: &mut Search<'_>,
) -> io::Result<bool> {
    let mut is_known = false;
    for rows in all_rows() {
        is_known |= print_rows(rt, stream, rows, word, search)?;
    }
    Ok(is_known)
}

// Returns the help's rows of each sort.
fn all_rows() -> [&'static str; 5] {
    [
        between(LONG_ABOUT, LINES_BEGIN, PARAGRAPH_ENDS),
        between(LONG_ABOUT, ANSWERS_BEGIN, PARAGRAPH_ENDS),
        between(LONG_ABOUT, PARTS_BEGIN, PARAGRAPH_ENDS),
        all_refusals(),
        between(LONG_ABOUT, KINDS_BEGIN, PARAGRAPH_ENDS),
    ]
}

// Writes the rows that begin with a word, with their further lines, and returns whether there are any. Offers each
// row's word to the search.
fn print_rows(
    rt: &impl Runtime,
    stream: Stream,
    rows: &'static str,
    word: &[u8],
    search: &mut Search<'_>,
) -> io::Result<bool> {
    let mut is_found = false;
    let mut is_shown = false;
    for line in rows.lines() {
        if let Some(first) = word_of_row(line) {
            is_shown = word.eq_ignore_ascii_case(first.as_bytes());
            is_found |= is_shown;
            search.compare(first);
        } else if !line.starts_with("   ") {
            is_shown = false;
        }
        if is_shown {
            print_row(rt, stream, line)?;
        }
    }
    Ok(is_found)
}

fn print_row(rt: &impl Runtime, stream: Stream, line: &str) -> io::Result<()> {
    match stream {
        Stream::Output => println!(rt; "{line}"),
        Stream::Error => eprintln!(rt; "{line}"),
    }
}
