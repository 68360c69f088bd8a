//! Fast readers for the lines that most scripts consist of: `offer`, `publish` and `retrieve`.
//!
//! Each promises, for the lines of one word, what `read_line` and `read_line_after` promise. It returns the parts of
//! the command rather than a `ScriptCommand`, which is as large as the largest command and would be copied from each
//! reader to its caller.

ghost use Rattle.std.specs.Prelude.{◌↔◌, IsTrue};
ghost use Rattle.line_io.specs.Lines.{EndsLine};
ghost use Rattle.script_commands.specs.Command.{ReadsCommand};
ghost use Rattle.script_commands.specs.Fast.{IsOffer, IsPublish, IsRetrieve, OfPlaced, publish_read, retrieve_read};
ghost use Rattle.script_commands.specs.Later.{ReadsLater};
ghost use Rattle.script_commands.specs.declared.fault.CommandFault.{CommandFault as Fault};

use crate::fault::{CommandFault, fault_after_word};
use crate::lines::{item_at, publication_at, retrieved_at};
use crate::pieces::Rest;
use ds_entry::{Item, Value};
use ds_line::Expected;
use ds_names::{Endpoint, Key, Version};
use std::alloc::Global;

/// The parts of a `publish`. `overwrite` is whether a live value may be replaced.
#[derive(Drop)]
pub struct Publication {
    pub caller: Endpoint,
    pub key: Key,
    pub version: Version,
    pub value: Value,
    pub overwrite: bool,
}

/// Returns whether a line's word is `offer`, with a space after it.
#[inline(always)]
pub fn is_offer(line: &[u8]) -> bool
    ensures { IsTrue result ↔ IsOffer line.now }
{
    // Byte by byte: the first byte rules out most other words, and nothing is called.
    matches!(line, [b'o', b'f', b'f', b'e', b'r', b' ', ..])
}

/// Returns whether a line's word is `publish`, with a space after it.
#[inline(always)]
pub fn is_publish(line: &[u8]) -> bool
    ensures { IsTrue result ↔ IsPublish line.now }
{
    matches!(line, [b'p', b'u', b'b', b'l', b'i', b's', b'h', b' ', ..])
}

/// Returns whether a line's word is `retrieve`, with a space after it.
#[inline(always)]
pub fn is_retrieve(line: &[u8]) -> bool
    ensures { IsTrue result ↔ IsRetrieve line.now }
{
    matches!(
        line,
        [b'r', b'e', b't', b'r', b'i', b'e', b'v', b'e', b' ', ..]
    )
}

/// Reads an `offer` line, newline included, and writes its item to `slot`.
#[inline(always)]
pub fn fast_offer(alloc: Global, line: &[u8], slot: &mut Option<Item>) -> Result<(), CommandFault>
    requires line { EndsLine line.now }
    requires offer { IsOffer line.now }
    ensures first { OfPlaced Fault (ReadsCommand line.now) result slot.new }
    ensures later { OfPlaced Fault (ReadsLater line.now) result slot.new }
{
    let (_word, bytes) = line.split_at(5);
    let mut rest = Rest {
        bytes,
        expected: Expected::Space,
    };
    match item_at(alloc, &mut rest, slot) {
        Ok(()) => Ok(()),
        Err(stop) => Err(fault_after_word(line, stop, rest.expected)),
    }
}

/// Reads a `publish` line, newline included.
#[inline(always)]
pub fn fast_publish(alloc: Global, line: &[u8]) -> Result<Publication, CommandFault>
    requires line { EndsLine line.now }
    requires publish { IsPublish line.now }
    ensures first { ReadsCommand line.now (publish_read result) }
    ensures later { ReadsLater line.now (publish_read result) }
{
    let (_word, bytes) = line.split_at(7);
    let mut rest = Rest {
        bytes,
        expected: Expected::Space,
    };
    match publication_at(alloc, &mut rest) {
        Ok(publication) => Ok(publication),
        Err(stop) => Err(fault_after_word(line, stop, rest.expected)),
    }
}

/// Reads a `retrieve` line, newline included, and returns its key.
#[inline(always)]
pub fn fast_retrieve(line: &[u8]) -> Result<Key, CommandFault>
    requires line { EndsLine line.now }
    requires retrieve { IsRetrieve line.now }
    ensures first { ReadsCommand line.now (retrieve_read result) }
    ensures later { ReadsLater line.now (retrieve_read result) }
{
    let (_word, bytes) = line.split_at(8);
    let mut rest = Rest {
        bytes,
        expected: Expected::Space,
    };
    match retrieved_at(&mut rest) {
        Ok(key) => Ok(key),
        Err(stop) => Err(fault_after_word(line, stop, rest.expected)),
    }
}
