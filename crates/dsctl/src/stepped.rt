//! A script's input: its format, its lines one by one where that is needed, and the ends of answers.

ghost use Rattle.std.specs.Prelude.{◌≤◌, length};

use std::cell::Cell;
use std::io::{self, ErrorKind, Read, Write};
use std::rt::Runtime;

/// How many bytes are read ahead of a line.
const BLOCK: usize = 4096;

/// The first line of a script of format 2.
const HEADER: &[u8] = b"script 2\n";

/// The number of the line that was delivered last, from 1.
#[derive(Drop)]
pub(crate) struct LineNumber {
    number: Cell<u64>,
    begins: Cell<bool>,
}

impl LineNumber {
    /// Returns the number before the first line.
    pub(crate) fn new() -> LineNumber {
        LineNumber {
            number: Cell::new(0),
            begins: Cell::new(true),
        }
    }

    /// Returns the number.
    pub(crate) fn get(&self) -> u64 {
        self.number.get()
    }

    // Counts the lines that begin in these bytes, at most one of which ends.
    fn count(&self, bytes: &[u8]) {
        let Some(last) = bytes.last() else {
            return;
        };
        if self.begins.get() {
            self.number.set(self.number.get().saturating_add(1));
        }
        self.begins.set(*last == b'\n');
    }
}

/// How an input is delivered.
#[derive(Clone, Copy)]
pub(crate) struct Stepping {
    /// Whether an empty line ends each answer.
    pub(crate) ends: bool,
    /// Whether comments and empty lines have no answer. Each line is delivered alone then.
    pub(crate) notes: bool,
}

/// An input that is delivered line by line if answers end or comments are passed over, and otherwise as it comes.
#[derive(Drop)]
pub(crate) struct Stepped<'a, R, I> {
    rt: &'a R,
    reader: I,
    how: Stepping,
    line: &'a LineNumber,
    block: [u8; BLOCK],
    begin: usize,
    end: usize,
    waits: bool,
    /// The error of an end that couldn't be written.
    pub(crate) unwritten: Option<io::Error>,
}

impl<'a, R: Runtime, I: Read> Stepped<'a, R, I> {
    /// Returns an input over another, which wasn't read yet.
    pub(crate) fn new(rt: &'a R, reader: I, ends: bool, line: &'a LineNumber) -> Stepped<'a, R, I> {
        Stepped {
            rt,
            reader,
            how: Stepping { ends, notes: false },
            line,
            block: [0; BLOCK],
            begin: 0,
            end: 0,
            waits: false,
            unwritten: None,
        }
    }

    /// Reads the first line if it names format 2, and returns whether it does. It is called once, before any read.
    pub(crate) fn take_header(&mut self) -> io::Result<bool> {
        for _again in 0..u64::MAX {
            if self.end >= HEADER.len() || !HEADER.starts_with(self.waiting()) {
                break;
            }
            let Some(room) = self.block.get_mut(self.end..) else {
                break;
            };
            match self.reader.read(room) {
                Ok(0) => return Ok(self.take_last_header()),
                Ok(count) => self.end = self.end.saturating_add(count),
                Err(error) if error.kind() == ErrorKind::Interrupted => {}
                Err(error) => return Err(error),
            }
        }
        self.how.notes = self.waiting().starts_with(HEADER);
        if self.how.notes {
            self.begin = HEADER.len();
            self.line.count(HEADER);
        }
        Ok(self.how.notes)
    }

    // Takes the first line where the input ends, if it names format 2 without a newline. Returns whether it does.
    fn take_last_header(&mut self) -> bool {
        let is_header = HEADER.strip_suffix(b"\n") == Some(self.waiting());
        if is_header {
            self.begin = self.end;
        }
        is_header
    }

    /// Ends the answer to the line before, if that isn't done. `Err`: the end couldn't be written.
    pub(crate) fn end_answer(&mut self) -> io::Result<()> {
        if !self.waits || !self.how.ends {
            return Ok(());
        }
        self.waits = false;
        let written = io::writer(self.rt).write_all(b"\n");
        if let Err(error) = &written {
            self.unwritten = Some(*error);
        }
        written
    }

    /// Returns what was read ahead.
    pub(crate) fn waiting(&self) -> &[u8] {
        self.block.get(self.begin..self.end).unwrap_or(&[])
    }

    // Whether a line that begins so has no answer.
    fn is_note(&self, bytes: &[u8]) -> bool {
        self.how.notes && (bytes.starts_with(b"#") || bytes.starts_with(b"\n"))
    }

    // Reads ahead, if nothing is waiting. Returns whether anything is.
    fn fill(&mut self) -> io::Result<bool> {
        if !self.waiting().is_empty() {
            return Ok(true);
        }
        self.begin = 0;
        self.end = 0;
        self.end = self.reader.read(&mut self.block)?;
        Ok(self.end > 0)
    }

    // Whether lines are delivered one by one.
    fn is_stepped(&self) -> bool {
        self.how.ends || self.how.notes
    }

    // Returns how many bytes are delivered at once: a line's, or all that are waiting.
    fn next_count(&self) -> usize {
        let waiting = self.waiting();
        match waiting.iter().position(|byte| *byte == b'\n') {
            Some(place) if self.is_stepped() => place + 1,
            _ => waiting.len(),
        }
    }

    // Delivers what is waiting: a line, or as much of one as there is and fits. Returns how many bytes that is.
    fn deliver(&mut self, buf: &mut [u8]) -> usize
        ensures { result ≤ length buf.old }
    {
        let line = self.next_count();
        let waiting = self.waiting();
        let count = line.min(buf.len()).min(waiting.len());
        buf[..count].copy_from_slice(&waiting[..count]);
        let given = &buf[..count];
        if self.line.begins.get() && count > 0 {
            self.waits = !self.is_note(given);
        }
        self.line.count(given);
        self.begin = self.begin.saturating_add(count);
        count
    }
}

impl<R: Runtime, I: Read> Read for Stepped<'_, R, I> {
    fn read(&mut self, buf: &mut [u8]) -> io::Result<usize> {
        if self.line.begins.get() {
            self.end_answer()?;
        }
        if !self.is_stepped() && self.waiting().is_empty() {
            return self.reader.read(buf);
        }
        if !self.fill()? {
            return Ok(0);
        }
        Ok(self.deliver(buf))
    }
}
