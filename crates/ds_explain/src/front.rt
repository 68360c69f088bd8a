//! Keeps the front of an input while the rest is read, so that a bad header can be explained.

use std::io::{self, Read};

/// How many bytes are kept: a trace's header is shorter.
const KEPT: usize = 1024;

/// A reader that keeps the first bytes that it read.
#[derive(Drop)]
pub struct WithFront<R> {
    /// The reader.
    reader: R,
    front: [u8; KEPT],
    count: usize,
}

impl<R: Read> WithFront<R> {
    /// Returns such a reader over another, which wasn't read yet.
    pub fn new(reader: R) -> WithFront<R> {
        WithFront {
            reader,
            front: [0; KEPT],
            count: 0,
        }
    }

    /// Returns what is kept.
    pub fn kept(&self) -> &[u8] {
        self.front.get(..self.count).unwrap_or(&[])
    }

    /// Returns the first line that was read, with its newline, as far as it is kept.
    pub fn first_line(&self) -> &[u8] {
        let kept = self.kept();
        match kept.iter().position(|byte| *byte == b'\n') {
            Some(place) => kept.get(..=place).unwrap_or(kept),
            None => kept,
        }
    }

    // Keeps what was read, up to KEPT bytes.
    fn keep(&mut self, read: &[u8]) {
        for byte in read {
            if self.count >= KEPT {
                return;
            }
            self.front[self.count] = *byte;
            self.count += 1;
        }
    }
}

impl<R: Read> Read for WithFront<R> {
    fn read(&mut self, buf: &mut [u8]) -> io::Result<usize> {
        let count = self.reader.read(buf)?;
        self.keep(&buf[..count]);
        Ok(count)
    }
}
