//! Keeps the end of an input while it is read, so that a bad line can be shown.

use std::io::{self, Read};

/// How many bytes one read takes at most: a line's longest.
const AT_ONCE: usize = 4096;

/// How many bytes are kept: those of one read, and the front of a line before them.
const KEPT: usize = 2 * AT_ONCE + 2;

/// A reader that keeps what it read last, from the beginning of a line on.
#[derive(Drop)]
pub struct WithTail<R> {
    /// The reader.
    reader: R,
    kept: [u8; KEPT],
    count: usize,
    passed: u64,
}

impl<R: Read> WithTail<R> {
    /// Returns such a reader over another, which wasn't read yet.
    pub fn new(reader: R) -> WithTail<R> {
        WithTail {
            reader,
            kept: [0; KEPT],
            count: 0,
            passed: 0,
        }
    }

    /// Returns a line by its number, from 1, with a newline, and the lines after it as far as they are kept; `None` if it
    /// isn't kept, or wasn't read.
    pub fn from_line(&mut self, number: u64) -> Option<&[u8]> {
        self.end_line();
        let index = number.checked_sub(1)?.checked_sub(self.passed)?;
        let mut rest = self.kept.get(..self.count)?;
        for _before in 0..index {
            rest = after_line(rest)?;
        }
        (!rest.is_empty()).then_some(rest)
    }

    // Ends the last line by a newline, if it has none.
    fn end_line(&mut self) {
        let kept = self.kept.get(..self.count).unwrap_or(&[]);
        if kept.last().is_some_and(|byte| *byte != b'\n') {
            self.keep(b"\n");
        }
    }

    // Forgets all whole lines.
    fn forget_lines(&mut self) {
        let kept = self.kept.get(..self.count).unwrap_or(&[]);
        let lines = kept.iter().filter(|byte| **byte == b'\n').count();
        let Some(last) = kept.iter().rposition(|byte| *byte == b'\n') else {
            return;
        };
        self.passed = self.passed.saturating_add(lines as u64);
        let mut count = 0;
        for place in last + 1..self.count {
            if place >= KEPT || count >= KEPT {
                break;
            }
            self.kept[count] = self.kept[place];
            count += 1;
        }
        self.count = count;
    }

    // Keeps what was read, as far as there is room.
    fn keep(&mut self, read: &[u8]) {
        for byte in read {
            if self.count >= KEPT {
                return;
            }
            self.kept[self.count] = *byte;
            self.count += 1;
        }
    }
}

// Returns what comes after a text's first line, if that ends.
fn after_line(text: &[u8]) -> Option<&[u8]> {
    let end = text.iter().position(|byte| *byte == b'\n')?;
    text.get(end + 1..)
}

impl<R: Read> Read for WithTail<R> {
    fn read(&mut self, buf: &mut [u8]) -> io::Result<usize> {
        let most = buf.len().min(AT_ONCE);
        let count = self.reader.read(&mut buf[..most])?;
        self.forget_lines();
        self.keep(&buf[..count]);
        Ok(count)
    }
}
