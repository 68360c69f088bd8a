//! Explains the first line of a trace: which part of it is bad.

use crate::bad_part::{say_at, say_found_at, say_space_at};
use crate::found::Found;
use ds_names::limits::{LARGEST_RING, LAST_PLACE};
use ds_names::{read_byte, read_decimal};
use std::rt::Runtime;

/// The formats of trace that are read.
#[derive(Clone, Copy, PartialEq, Eq)]
pub(crate) enum Formats {
    /// Both.
    Both,
    /// Format 1 alone.
    Older,
}

impl Formats {
    // Returns their numbers, in words.
    fn numbers(self) -> &'static str {
        match self {
            Formats::Both => "1 or 2",
            Formats::Older => "1",
        }
    }

    /// Returns what a header looks like.
    pub(crate) fn header(self) -> &'static str {
        match self {
            Formats::Both => "`trace 2 INCARNATION FIRST RING SUBS KEYS`",
            Formats::Older => "`trace 1 INCARNATION FIRST RING`",
        }
    }
}

/// A number of a header, and the words for it.
#[derive(Clone, Copy)]
struct Number {
    name: &'static str,
    wanted: &'static str,
    least: u64,
    most: u64,
}

const INCARNATION: Number = Number {
    name: "INCARNATION",
    wanted: "INCARNATION was expected, a number below 2^64 with no leading zero",
    least: 0,
    most: u64::MAX,
};

const FIRST: Number = Number {
    name: "FIRST",
    wanted: "FIRST was expected, the first position, 0 to 2^62 with no leading zero",
    least: 0,
    most: LAST_PLACE,
};

const RING: Number = Number {
    name: "RING",
    wanted: "RING was expected, 1 to 4096 with no leading zero",
    least: 1,
    most: LARGEST_RING as u64,
};

/// The numbers that a header of either format begins with.
const FRONT: [Number; 3] = [INCARNATION, FIRST, RING];

/// The most subscriptions and keys that formats have.
const MOST_LIMIT: u64 = 4096;

const END_WANTED: &str = "the end of the line was expected";

/// Writes which part of a first line is bad, if it begins with the word of a header. Returns whether it did.
pub(crate) fn explain_header(rt: &impl Runtime, line: &[u8], formats: Formats) -> bool {
    let Some(rest) = line.strip_prefix(b"trace ") else {
        return false;
    };
    match read_decimal(rest, 2) {
        Some((1, numbers)) => explain_older(rt, line, numbers),
        Some((2, numbers)) => explain_newer(rt, line, numbers),
        _ => {
            let numbers = formats.numbers();
            let found = Found(rest);
            let _ = eprintln!(rt;
                "dsctl: line 1, byte 6: the format was expected, {numbers}; {found} was found"
            );
            true
        }
    }
}

// Explains what follows `trace 1`.
fn explain_older(rt: &impl Runtime, line: &[u8], numbers: &[u8]) -> bool {
    match after_front(rt, line, numbers) {
        Some(rest) => explain_end(rt, line, rest),
        None => true,
    }
}

// Explains what follows `trace 2`.
fn explain_newer(rt: &impl Runtime, line: &[u8], numbers: &[u8]) -> bool {
    let Some(rest) = after_front(rt, line, numbers) else {
        return true;
    };
    let Some(subs) = after_space(rt, line, rest, "SUBS") else {
        return true;
    };
    let (keys, wanted, rest) = match read_decimal(subs, MOST_LIMIT) {
        Some((64, rest)) => (1024, "KEYS was expected, 1024 after 64", rest),
        Some((128, rest)) => (4096, "KEYS was expected, 4096 after 128", rest),
        _ => {
            say_found(rt, line, subs, "SUBS was expected, 64 or 128");
            return true;
        }
    };
    let Some(text) = after_space(rt, line, rest, "KEYS") else {
        return true;
    };
    match read_decimal(text, MOST_LIMIT) {
        Some((count, rest)) if count == keys => explain_end(rt, line, rest),
        _ => {
            say_found(rt, line, text, wanted);
            true
        }
    }
}

// Returns what follows the numbers that both formats have, or `None` once one of them is explained.
fn after_front<'a>(rt: &impl Runtime, line: &[u8], numbers: &'a [u8]) -> Option<&'a [u8]> {
    let mut rest = numbers;
    for number in FRONT {
        let text = after_space(rt, line, rest, number.name)?;
        match read_decimal(text, number.most) {
            Some((read, more)) if read >= number.least => rest = more,
            _ => {
                say_found(rt, line, text, number.wanted);
                return None;
            }
        }
    }
    Some(rest)
}

// Returns what follows a space, or `None` once it is explained that the space before this number is missing.
fn after_space<'a>(rt: &impl Runtime, line: &[u8], rest: &'a [u8], name: &str) -> Option<&'a [u8]> {
    let text = read_byte(rest, b' ');
    if text.is_none() {
        say_space_at(rt, 1, place_of(line, rest), name, rest);
    }
    text
}

// Explains what follows the last number. Returns whether anything is wrong there.
fn explain_end(rt: &impl Runtime, line: &[u8], rest: &[u8]) -> bool {
    match rest.first().copied() {
        None | Some(b'\n') => false,
        Some(_) => {
            say_found_at(rt, 1, place_of(line, rest), END_WANTED, rest);
            true
        }
    }
}

// Writes what was expected at the rest of a line, and what was found there.
fn say_found(rt: &impl Runtime, line: &[u8], rest: &[u8], wanted: &str) {
    let place = place_of(line, rest);
    if rest.first().copied() == Some(b' ') {
        say_at(
            rt,
            1,
            place,
            "one space was expected between parts; two were found",
        );
    } else {
        say_found_at(rt, 1, place, wanted, rest);
    }
}

// Returns the byte of the line at which its rest begins.
fn place_of(line: &[u8], rest: &[u8]) -> usize {
    line.len().saturating_sub(rest.len())
}
