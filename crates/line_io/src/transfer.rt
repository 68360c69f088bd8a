//! Single reads, and writes of a whole text.

ghost use Rattle.std.specs.Prelude.{◌≡◌, ◌≤◌, ◌<◌, ◌+◌, [], IfOk, OnOk, OnErr, length, drop, vec_len};
ghost use Rattle.std.specs.Io.KnownBytes.{Appends};
ghost use Rattle.line_io.specs.Streams.{HasFailedWrite, OnlyCalls};
ghost use Rattle.line_io.specs.Transfer.{Fills, FillsBy, WritesFront, WritesPart};

use crate::missed::Missed;
use crate::streams::{Sink, Source};

/// The outcome of one read.
#[derive(Clone, Copy, PartialEq, Eq)]
pub enum Filled {
    /// Some bytes were read.
    More,
    /// The input ended.
    End,
    /// A signal interrupted the read. Nothing was read, and the next read may succeed.
    Interrupted,
    /// The reader failed.
    Failed,
    /// Out of memory for the bytes that were read.
    NoRoom,
}

/// Reads once, and appends the bytes to the buffer.
pub(crate) fn fill<R: Source>(reader: &mut R, chunk: &mut [u8], pending: &mut Vec<u8>) -> Filled
    requires { 0 < length chunk.old }
    ensures fills { Fills result (R.remaining reader.old) (R.remaining reader.new) pending.old.items pending.new.items }
    ensures told { FillsBy R.reads R.fails result reader.old reader.new }
    ensures most { vec_len pending.new ≤ vec_len pending.old + length chunk.old }
    ensures chunk { length chunk.new ≡ length chunk.old }
{
    match reader.read(chunk) {
        Ok(0) => Filled::End,
        Ok(count) => match pending.extend_from_slice(&chunk[..count]) {
            Ok(()) => Filled::More,
            Err(_) => Filled::NoRoom,
        },
        Err(Missed::Interrupted) => Filled::Interrupted,
        Err(Missed::Failed) => Filled::Failed,
    }
}

/// The error when a writer fails or takes no bytes.
#[derive(Clone, Copy, PartialEq, Eq)]
pub struct WriteFailed;

/// Writes all of the text. If the writer fails, it has taken a prefix of the text.
pub fn write_out<W: Sink>(writer: &mut W, text: &[u8]) -> Result<(), WriteFailed>
    ensures ok { OnOk result (Appends (W.contents writer.old) (W.contents writer.new) text.now) }
    ensures err { OnErr result (WritesPart (W.contents writer.old) (W.contents writer.new) text.now) }
    ensures led { OnOk result (OnlyCalls W.writes writer.old writer.new) }
    ensures cause { OnErr result (HasFailedWrite W.writes W.fails writer.old writer.new) }
{
    let mut rest = text;
    for _turn in 0..u64::MAX {
        if rest.is_empty() {
            return Ok(());
        }
        match write_once(writer, rest) {
            Ok(count) => rest = past(rest, count),
            Err(failed) => return Err(failed),
        }
    }
    Err(WriteFailed)
}

// Writes once, and returns the count of bytes that were taken, which is 0 if a signal interrupted the write.
fn write_once<W: Sink>(writer: &mut W, text: &[u8]) -> Result<usize, WriteFailed>
    ensures ok { IfOk result (λ count. WritesFront (W.contents writer.old) (W.contents writer.new) count text.now) }
    ensures err { OnErr result (Appends (W.contents writer.old) (W.contents writer.new) []) }
    ensures led { OnOk result (W.writes writer.old writer.new) }
    ensures fails { OnErr result (W.fails writer.old writer.new) }
{
    match writer.write(text) {
        Ok(0) => Err(WriteFailed),
        Ok(count) => Ok(count),
        Err(Missed::Interrupted) => Ok(0),
        Err(Missed::Failed) => Err(WriteFailed),
    }
}

// Returns the text after its first `count` bytes.
fn past(text: &[u8], count: usize) -> &[u8]
    requires { count ≤ length text.now }
    ensures { result.now ≡ drop count text.now }
{
    &text[count..]
}

/// Removes the first `count` bytes.
pub(crate) fn drop_front(bytes: &mut Vec<u8>, count: usize)
    requires { count ≤ vec_len bytes.old }
    ensures { bytes.new.items ≡ drop count bytes.old.items }
{
    let left = bytes.len() - count;
    bytes.copy_within(count.., 0);
    bytes.truncate(left);
}
