//! A reader and a writer for tests. Each works in memory and can fail at one call.

ghost use Rattle.std.specs.Prelude.{◌≡◌, ◌≢◌, ◌<◌, ◌+◌, ◌%◌, ◌^◌, [], Some, length};

use crate::missed::Missed;
use crate::streams::{Sink, Source};
use std::alloc::Global;
use std::io::{self, ErrorKind, Read, Write};

/// A fake reader for tests. It delivers the bytes of a text, and fails at one call.
#[derive(Drop)]
pub struct FailRead<'a> {
    rest: &'a [u8],
    most: usize,
    fail_at: u32,
    calls: u32,
}

impl<'a> FailRead<'a> {
    /// Returns a reader of the text that delivers at most `most` bytes a call, or one if `most` is 0. The call with number
    /// `fail_at`, from 1 on, fails; with 0, no call fails.
    pub fn new(text: &'a [u8], fail_at: u32, most: usize) -> FailRead<'a>
        ensures text { result.rest.now ≡ text.now }
        ensures call { (result.fail_at ≡ fail_at) × (result.calls ≡ 0) }
    {
        FailRead {
            rest: text,
            most,
            fail_at,
            calls: 0,
        }
    }
}

impl Source for FailRead<'_> {
    ghost remaining = { λ r. Some r.rest.now };

    ghost reads = { λ s t. (t.calls ≡ (s.calls + 1) % 2 ^ 32) × (t.fail_at ≡ s.fail_at) × (t.calls ≢ s.fail_at) };

    ghost fails = { λ s t. (t.calls ≡ (s.calls + 1) % 2 ^ 32) × (t.fail_at ≡ s.fail_at) × (t.calls ≡ s.fail_at) };

    fn read(&mut self, buf: &mut [u8]) -> Result<usize, Missed> {
        self.calls = self.calls.wrapping_add(1);
        if self.calls == self.fail_at {
            return Err(Missed::Failed);
        }
        let count = self.rest.len().min(buf.len()).min(self.most.max(1));
        buf[..count].copy_from_slice(&self.rest[..count]);
        self.rest = &self.rest[count..];
        Ok(count)
    }
}

impl Read for FailRead<'_> {
    ghost remaining = { λ r. Some r.rest.now };

    fn read(&mut self, buf: &mut [u8]) -> io::Result<usize> {
        match Source::read(self, buf) {
            Ok(count) => Ok(count),
            Err(_) => Err(io::Error::from(ErrorKind::Other)),
        }
    }
}

/// A fake writer for tests. It keeps the bytes that it gets, and fails at one call.
#[derive(Drop)]
pub struct FailWrite {
    written: Vec<u8>,
    most: usize,
    fail_at: u32,
    calls: u32,
}

impl FailWrite {
    /// Returns a writer that takes at most `most` bytes a call, which may be 0. The call with number `fail_at`, from 1 on,
    /// fails; with 0, no call fails.
    pub fn new(alloc: Global, fail_at: u32, most: usize) -> FailWrite
        ensures written { result.written.items ≡ [] }
        ensures call { (result.fail_at ≡ fail_at) × (result.calls ≡ 0) }
    {
        FailWrite {
            written: Vec::new(alloc),
            most,
            fail_at,
            calls: 0,
        }
    }

    /// Returns the bytes that were written so far.
    pub fn written(&self) -> &[u8]
        ensures { result.now ≡ self.now.written.items }
    {
        self.written.as_slice()
    }
}

impl Sink for FailWrite {
    ghost contents = { λ w. Some w.written.items };

    ghost writes = { λ s t. (t.calls ≡ (s.calls + 1) % 2 ^ 32) × (t.fail_at ≡ s.fail_at) × (t.calls ≢ s.fail_at)
        × (length s.written.items < length t.written.items) };

    ghost fails = { λ s t. (t.calls ≡ (s.calls + 1) % 2 ^ 32) × (t.fail_at ≡ s.fail_at) × (t.written.items ≡ s.written.items) };

    fn write(&mut self, buf: &[u8]) -> Result<usize, Missed> {
        self.calls = self.calls.wrapping_add(1);
        if self.calls == self.fail_at {
            return Err(Missed::Failed);
        }
        let count = buf.len().min(self.most);
        match self.written.extend_from_slice(&buf[..count]) {
            Ok(()) => Ok(count),
            Err(_) => Err(Missed::Failed),
        }
    }
}

impl Write for FailWrite {
    ghost contents = { λ w. Some w.written.items };

    fn write(&mut self, buf: &[u8]) -> io::Result<usize> {
        match Sink::write(self, buf) {
            Ok(count) => Ok(count),
            Err(_) => Err(io::Error::from(ErrorKind::Other)),
        }
    }

    fn flush(&mut self) -> io::Result<()> {
        Ok(())
    }
}
