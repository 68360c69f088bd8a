//! The first line of a trace.

ghost use Rattle.std.specs.Prelude.{◌≡◌, ◌≢◌, IfSome, IfNone};
ghost use Rattle.trace_walk.specs.Text.{IsHeader, header_text, numbers_text, HasNoHeader};

use crate::number::number_at;
use ds_held::Limits;
use ds_names::limits::{LARGEST_RING, LAST_PLACE};

/// No limit is above this.
const MOST_LIMIT: u64 = 4096;

/// The format of a trace. A sweep leaves tombstones in format 1, and raises a floor in format 2.
#[derive(Clone, Copy, PartialEq, Eq)]
pub enum Format {
    One,
    Two,
}

/// How the store of a trace was opened.
#[derive(Clone, Copy, PartialEq, Eq)]
pub struct Header {
    pub format: Format,
    pub incarnation: u64,
    pub first: u64,
    pub ring: u32,
    pub limits: Limits,
}

/// Reads a header, given with its newline. `None`: the line isn't one.
pub fn read_header(line: &[u8]) -> Option<Header>
    ensures found { IfSome result (λ h. IsHeader h × (line.now ≡ header_text h)) }
    ensures none { IfNone result (HasNoHeader line.now) }
{
    if line.starts_with(b"trace 1 ") {
        first_header(&line[8..])
    } else if line.starts_with(b"trace 2 ") {
        second_header(&line[8..])
    } else {
        None
    }
}

// Reads what follows `trace 1 `.
fn first_header(bytes: &[u8]) -> Option<Header>
    ensures found { IfSome result (λ h. (h.format ≡ Format.One) × IsHeader h × (bytes.now ≡ numbers_text h)) }
    ensures none { IfNone result ((h : Header) → h.format ≡ Format.One → IsHeader h → bytes.now ≢ numbers_text h) }
{
    let (incarnation, rest) = number_at(bytes, u64::MAX, b' ')?;
    let (first, rest) = number_at(rest, LAST_PLACE, b' ')?;
    let (ring, rest) = number_at(rest, LARGEST_RING as u64, b'\n')?;
    if ring == 0 {
        return None;
    }
    if !rest.is_empty() {
        return None;
    }
    Some(Header {
        format: Format::One,
        incarnation,
        first,
        ring: ring as u32,
        limits: Limits::smaller(),
    })
}

// Reads what follows `trace 2 `.
fn second_header(bytes: &[u8]) -> Option<Header>
    ensures found { IfSome result (λ h. (h.format ≡ Format.Two) × IsHeader h × (bytes.now ≡ numbers_text h)) }
    ensures none { IfNone result ((h : Header) → h.format ≡ Format.Two → IsHeader h → bytes.now ≢ numbers_text h) }
{
    let (incarnation, rest) = number_at(bytes, u64::MAX, b' ')?;
    let (first, rest) = number_at(rest, LAST_PLACE, b' ')?;
    let (ring, rest) = number_at(rest, LARGEST_RING as u64, b' ')?;
    let (subs, rest) = number_at(rest, MOST_LIMIT, b' ')?;
    let (keys, rest) = number_at(rest, MOST_LIMIT, b'\n')?;
    if ring == 0 {
        return None;
    }
    if !rest.is_empty() {
        return None;
    }
    Some(Header {
        format: Format::Two,
        incarnation,
        first,
        ring: ring as u32,
        limits: Limits::of(subs as u32, keys as u32)?,
    })
}
