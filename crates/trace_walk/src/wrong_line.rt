//! The first wrong line of a trace.

ghost use Rattle.std.specs.Prelude.{◌≡◌};
ghost use Rattle.trace_walk.specs.Wanting.{wanted_in};

use crate::walk::Walk;
use line_io::{LONGEST_LINE, Lines, split_line};

/// The sort of line that must follow.
#[derive(Clone, Copy, PartialEq, Eq)]
pub enum Wanted {
    /// The header.
    Header,
    /// The first line of an entry.
    Entry,
    /// The line of an item of a Merge.
    Item,
    /// A line of a reply.
    Reply,
}

/// The line that a trace has.
#[derive(Clone, Copy)]
pub enum Stands<'a> {
    /// This line, with its newline.
    Line(&'a [u8]),
    /// A line above 4096 bytes.
    Long,
    /// None: the trace ends.
    Nothing,
}

/// The first line of a trace that no legal trace has in its place.
#[derive(Clone, Copy)]
pub struct WrongLine<'a> {
    /// Its number, from 1.
    pub number: u64,
    /// Which sort of line must follow.
    pub wanted: Wanted,
    /// The first line of its entry, or of the entry before; empty if there is none.
    pub asked: &'a [u8],
    /// The line of the store's reply that must follow, with its newline and without its mark, if the store was called.
    pub reply: Option<&'a [u8]>,
    /// What is there; a line in a header's place isn't kept.
    pub stands: Stands<'a>,
}

impl Walk {
    /// Returns what must be there instead of a bad line after the header.
    pub fn wanted(&self) -> Wanted
        ensures { result ≡ wanted_in self.now.in_items }
    {
        if self.in_items {
            Wanted::Item
        } else {
            Wanted::Entry
        }
    }

    /// Returns the wrong line of this number, where a line of this sort must follow.
    pub fn line_at(&self, number: u64, wanted: Wanted) -> WrongLine<'_>
        ensures number { result.number ≡ number }
        ensures wanted { result.wanted ≡ wanted }
    {
        WrongLine {
            number,
            wanted,
            asked: first_line(self.entry.text.as_slice()),
            reply: nth_line(self.reply.as_slice(), number.saturating_sub(self.first)),
            stands: standing(&self.entry.lines, number),
        }
    }
}

// Returns the first line of a text, or nothing.
fn first_line(text: &[u8]) -> &[u8] {
    match split_line(text) {
        Some((line, _)) => line,
        None => &[],
    }
}

// Returns the line of a text after `before` others.
fn nth_line(text: &[u8], before: u64) -> Option<&[u8]> {
    let mut rest = text;
    for _line in 0..before {
        let (_, more) = split_line(rest)?;
        rest = more;
    }
    let (line, _) = split_line(rest)?;
    Some(line)
}

// Returns what is in the line of this number, which is the last that was read, or the one after it.
fn standing(lines: &Lines, number: u64) -> Stands<'_> {
    if lines.count() != number {
        if lines.front().is_empty() {
            Stands::Nothing
        } else {
            Stands::Long
        }
    } else if lines.line().len() > LONGEST_LINE + 1 {
        Stands::Long
    } else {
        Stands::Line(lines.line())
    }
}
