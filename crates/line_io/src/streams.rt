//! Sources of lines, and sinks of texts.

ghost use Rattle.std.specs.Prelude.{◌≡◌, ℕ, List, Option, None};
ghost use Rattle.std.specs.Io.{ReadsAtMost, WritesAtMost};
ghost use Rattle.std.specs.Io.KnownBytes.{ReadConsumes, WriteAppends};
ghost use Rattle.line_io.specs.Streams.{TellsRead, TellsWrite, IsUnharmed, IsHarmed, MeansMissed};

use crate::missed::Missed;
use std::io::{self, ErrorKind, Read, Write};

/// A source of bytes: a reader that may state which bytes it returns, and which of its reads fail.
pub trait Source {
    // The bytes that later reads will return, if they are known.
    ghost remaining: { Self → Option (List ℕ) } = { λ _. None };

    // A read that didn't fail may lead from the first state to the second.
    ghost reads: { Self → Self → Type 0 } = { λ _ _. Unit {0} };

    // A read that failed may lead from the first state to the second.
    ghost fails: { Self → Self → Type 0 } = { λ _ _. Unit {0} };

    /// Reads once, and returns the count of bytes: 0 at the end.
    fn read(&mut self, buf: &mut [u8]) -> Result<usize, Missed>
        ensures bound { ReadsAtMost result buf.new }
        ensures bytes { ReadConsumes (remaining self.old) (remaining self.new) result buf.new }
        ensures told { TellsRead reads fails result self.old self.new };
}

/// A sink of bytes: a writer that may state which bytes it holds, and which of its writes fail.
pub trait Sink {
    // The bytes that the sink has, if they are known.
    ghost contents: { Self → Option (List ℕ) } = { λ _. None };

    // A write that didn't fail may lead from the first state to the second.
    ghost writes: { Self → Self → Type 0 } = { λ _ _. Unit {0} };

    // A write that failed, or took no bytes, may lead from the first state to the second.
    ghost fails: { Self → Self → Type 0 } = { λ _ _. Unit {0} };

    /// Writes once, and returns the count of bytes that were taken. A write that takes no bytes has failed.
    fn write(&mut self, buf: &[u8]) -> Result<usize, Missed>
        ensures bound { WritesAtMost result buf.now }
        ensures bytes { WriteAppends (contents self.old) (contents self.new) result buf.now }
        ensures told { TellsWrite writes fails result self.old self.new };
}

/// A reader or a writer of `std`, with the error of its last call. It states its bytes if the inner one does. A call
/// fails if its error is any but an interruption by a signal; a write also if it takes no bytes.
#[derive(Drop)]
pub struct Plain<T> {
    pub inner: T,
    /// The error of the last call, or `None` if it had none. A write that took no bytes has the error WriteZero.
    pub fault: Option<io::Error>,
}

impl<T> Plain<T> {
    /// Returns the reader or writer before any call.
    pub fn new(inner: T) -> Plain<T>
        ensures inner { result.inner ≡ inner }
        ensures fault { result.fault ≡ None }
    {
        Plain { inner, fault: None }
    }
}

impl<R: Read> Source for Plain<R> {
    ghost remaining = { λ p. R.remaining p.inner };

    ghost reads = { λ old new. IsUnharmed new.fault };

    ghost fails = { λ old new. IsHarmed new.fault };

    fn read(&mut self, buf: &mut [u8]) -> Result<usize, Missed> {
        match self.inner.read(buf) {
            Ok(count) => {
                self.fault = None;
                Ok(count)
            }
            Err(fault) => {
                self.fault = Some(fault);
                Err(missed(&fault))
            }
        }
    }
}

impl<W: Write> Sink for Plain<W> {
    ghost contents = { λ p. W.contents p.inner };

    ghost writes = { λ old new. IsUnharmed new.fault };

    ghost fails = { λ old new. IsHarmed new.fault };

    fn write(&mut self, buf: &[u8]) -> Result<usize, Missed> {
        match self.inner.write(buf) {
            Ok(0) => {
                self.fault = Some(io::Error::from(ErrorKind::WriteZero));
                Ok(0)
            }
            Ok(count) => {
                self.fault = None;
                Ok(count)
            }
            Err(fault) => {
                self.fault = Some(fault);
                Err(missed(&fault))
            }
        }
    }
}

// Returns Interrupted if a signal interrupted the call, else Failed.
fn missed(fault: &io::Error) -> Missed
    ensures { MeansMissed fault.now result }
{
    if fault.kind() == ErrorKind::Interrupted {
        Missed::Interrupted
    } else {
        Missed::Failed
    }
}
