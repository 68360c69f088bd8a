//! The lines of an input that a reader delivers in pieces.

ghost use Rattle.std.specs.Prelude.{◌≡◌, ◌<◌, ◌≤◌, ◌^◌, [], true, false, suc, IfOk, OnErr};
ghost use Rattle.line_io.specs.Lines.{IsUnbroken};
ghost use Rattle.line_io.specs.Transfer.{Fills, FillsBy};
ghost use Rattle.line_io.specs.Reading.{GoesToNext, GoesToLast, no_lines};

use crate::split::split_line;
use crate::streams::Source;
use crate::transfer::{Filled, drop_front, fill};
use std::alloc::{AllocError, Global};
use std::marker::Model;

/// The most bytes of one read.
const CHUNK: usize = 65536;

/// The most reads of one input.
const READS: u64 = 4294967296;

/// The lines of an input: the current line, the bytes read after it, the count of lines and the count of reads.
///
/// The caller moves from line to line while whole ones are buffered, and then reads once more. So it decides what to do
/// before each read. The last line may lack its newline.
#[derive(Drop)]
pub struct Lines {
    chunk: Vec<u8>,
    bytes: Vec<u8>,
    start: usize,
    end: usize,
    count: u64,
    reads: u64,
}

impl Model for Lines {
    ghost use Rattle.std.specs.Prelude.{vec_len};
    ghost use Rattle.line_io.specs.Reading.{LinesContent, lines_of, AreLinesKept};

    ghost Value = { LinesContent };

    ghost view = { λ l. lines_of l.bytes.items l.start l.end l.count l.reads };

    ghost invariant = { λ l. AreLinesKept (vec_len l.chunk) (vec_len l.bytes) l.start l.end l.count l.reads };
}

impl Lines {
    /// Returns the lines of an input before anything of it was read. Fails only if memory runs out.
    pub fn new(alloc: Global) -> Result<Lines, AllocError>
        ensures { IfOk result (λ lines. lines ≡ no_lines) }
    {
        let chunk = Vec::from_elem(alloc, 0u8, CHUNK)?;
        Ok(Lines {
            chunk,
            bytes: Vec::new(alloc),
            start: 0,
            end: 0,
            count: 0,
            reads: 0,
        })
    }

    /// Moves to the next line, if it was read to its end. Returns whether it was.
    pub fn next(&mut self) -> bool
        ensures found { result ≡ true → GoesToNext self.old self.new }
        ensures none { result ≡ false → IsUnbroken self.old.rest }
        ensures kept { result ≡ false → self.new ≡ self.old }
        ensures few { self.new.count ≤ 2 ^ 48 }
    {
        let Some((line, _)) = split_line(&self.bytes[self.end..]) else {
            return false;
        };
        let length = line.len();
        self.start = self.end;
        self.end += length;
        self.count += 1;
        true
    }

    /// Returns whether another read is allowed: fewer than 2^32 were made.
    pub fn may_read(&self) -> bool
        ensures more { result ≡ true → self.now.reads < 2 ^ 32 }
        ensures all { result ≡ false → self.now.reads ≡ 2 ^ 32 }
    {
        self.reads < READS
    }

    /// Reads once. The current line becomes empty.
    pub fn read<R: Source>(&mut self, reader: &mut R) -> Filled
        requires { self.old.reads < 2 ^ 32 }
        ensures fills { Fills result (R.remaining reader.old) (R.remaining reader.new) self.old.rest self.new.rest }
        ensures told { FillsBy R.reads R.fails result reader.old reader.new }
        ensures line { self.new.line ≡ [] }
        ensures count { self.new.count ≡ self.old.count }
        ensures reads { self.new.reads ≡ suc self.old.reads }
    {
        drop_front(&mut self.bytes, self.end);
        self.start = 0;
        self.end = 0;
        self.reads += 1;
        fill(reader, self.chunk.as_mut_slice(), &mut self.bytes)
    }

    /// Moves to the last line, if it lacks its newline, and appends the newline. Returns whether there was such a line.
    /// Fails only if memory runs out for the newline.
    pub fn last(&mut self) -> Result<bool, AllocError>
        requires { IsUnbroken self.old.rest }
        ensures found { IfOk result (λ some. some ≡ true → GoesToLast self.old self.new) }
        ensures none { IfOk result (λ some. some ≡ false → self.old.rest ≡ []) }
        ensures same { IfOk result (λ some. some ≡ false → self.new ≡ self.old) }
        ensures kept { OnErr result (self.new ≡ self.old) }
    {
        if self.end == self.bytes.len() {
            return Ok(false);
        }
        self.bytes.push(b'\n')?;
        self.start = self.end;
        self.end = self.bytes.len();
        self.count += 1;
        Ok(true)
    }

    /// Returns the current line, with its newline. After a read it is empty.
    pub fn line(&self) -> &[u8]
        ensures { result.now ≡ self.now.line }
    {
        &self.bytes[self.start..self.end]
    }

    /// Returns the bytes read after the current line.
    pub fn front(&self) -> &[u8]
        ensures { result.now ≡ self.now.rest }
    {
        &self.bytes[self.end..]
    }

    /// Returns the number of lines that were reached.
    pub fn count(&self) -> u64
        ensures value { result ≡ self.now.count }
        ensures limit { result ≤ 2 ^ 49 }
    {
        self.count
    }
}
