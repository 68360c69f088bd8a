//! Queries in a line: a pattern in quotes, and a mask of kinds.

#![tactic(auto, unfolding(crate::specs::Reads::ReadsOr))]

ghost use Rattle.std.specs.Prelude.{◌≡◌, ◌≢◌, ◌++◌, ℕ, List, [], Err, IfOk, IfErr, OnErr, IfSome, IfNone};
ghost use Rattle.ds_line.specs.Spelling.{escaped, escaped_byte, quoted};
ghost use Rattle.line_io.specs.Lines.{IsUnbroken};
ghost use Rattle.script_commands.specs.Pieces.{a_pattern};
ghost use Rattle.script_commands.specs.Query.{IsWrittenText, unescaped, written_query};
ghost use Rattle.script_commands.specs.Reads.{Reads, FindsPattern};

use crate::pieces::Rest;
use ds_line::{Expected, PartFault, stop_at};
use ds_names::{Kinds, NoRoom, read_byte};
use ds_pattern::{PatternText, Query};
use std::alloc::Global;

impl<'a> Rest<'a> {
    /// Reads a pattern in quotes, and returns the bytes between them. The pattern is allocated only after the whole
    /// line is read.
    pub fn pattern(&mut self) -> Result<&'a [u8], PartFault>
        ensures found { IfOk result (λ text. FindsPattern text.now self.old.bytes.now self.new.bytes.now) }
        ensures stop { IfErr result (λ stop. Reads a_pattern self.old.bytes.now (Err stop) self.new.bytes.now) }
    {
        self.byte(b' ', Expected::Space)?;
        self.expected = Expected::Pattern;
        let Some((text, rest)) = quoted_at(self.bytes) else {
            return Err(stop_at(self.bytes));
        };
        self.bytes = rest;
        Ok(text)
    }
}

/// Returns the query of a pattern, given by the bytes between its quotes, and of some kinds. Reports NoRoom if
/// memory runs out for the pattern; an empty one takes none.
pub(crate) fn query_of(alloc: Global, written: &[u8], kinds: Kinds) -> Result<Query, NoRoom>
    requires { IsWrittenText written.now }
    ensures query { IfOk result (λ query. written_query written.now kinds ≡ query) }
    ensures room { OnErr result (unescaped written.now ≢ []) }
{
    let text = unescape(alloc, written)?;
    Ok(Query { text, kinds })
}

// Reads one byte of a quoted text: `\"` is a quote, `\\` a backslash, and every other byte except the newline is
// itself.
fn written_byte_at(bytes: &[u8]) -> Option<(u8, &[u8])>
    ensures found { IfSome result (λ r. bytes.now ≡ escaped_byte r.0 ++ r.1.now) }
    ensures valid { IfSome result (λ r. r.0 ≢ 10) }
    ensures none { IfNone result ((b : ℕ) (rest : List ℕ) → b ≢ 10 → bytes.now ≢ escaped_byte b ++ rest) }
{
    let (first, rest) = bytes.split_first()?;
    if *first == b'\\' {
        let (second, rest) = rest.split_first()?;
        if *second == b'"' || *second == b'\\' {
            Some((*second, rest))
        } else {
            None
        }
    } else if *first != b'"' && *first != b'\n' {
        Some((*first, rest))
    } else {
        None
    }
}

// Reads the quoted text at the front. Returns the bytes between the quotes, and the rest. `None` if there is no quoted
// text without a newline.
pub(crate) fn quoted_at(bytes: &[u8]) -> Option<(&[u8], &[u8])>
    ensures found { IfSome result (λ r. (text : List ℕ) × IsUnbroken text × (r.0.now ≡ escaped text)
        × (bytes.now ≡ quoted text ++ r.1.now)) }
    ensures none { IfNone result ((text rest : List ℕ) → IsUnbroken text → bytes.now ≢ quoted text ++ rest) }
{
    let written = read_byte(bytes, b'"')?;
    let mut rest = written;
    while let Some((_, after)) = written_byte_at(rest) {
        rest = after;
    }
    let Some(after) = read_byte(rest, b'"') else {
        return None;
    };
    Some((&written[..written.len() - rest.len()], after))
}

// Returns the text of these bytes, with its escapes resolved. An empty one takes no memory.
fn unescape(alloc: Global, written: &[u8]) -> Result<PatternText, NoRoom>
    requires { IsWrittenText written.now }
    ensures text { IfOk result (λ text. unescaped written.now ≡ text) }
    ensures room { OnErr result (unescaped written.now ≢ []) }
{
    let mut text = Vec::new(alloc);
    let mut rest = written;
    while let Some((byte, after)) = written_byte_at(rest) {
        text.push(byte)?;
        rest = after;
    }
    PatternText::of(alloc, &text)
}
