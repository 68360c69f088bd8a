//! The place where a line is bad.

ghost use Rattle.std.specs.Prelude.{◌≡◌, ◌≤◌, ◌-◌, ◌++◌, length, ℕ, List, codes, IfOk, IfErr, IfSome};
ghost use Rattle.line_io.specs.Lines.{EndsLine};
ghost use Rattle.trace_record.specs.Asking.{IsAtLimit, IsLineBadAt, IsTextBadAt, IsUncarried, has_pass};
ghost use Rattle.trace_record.specs.Places.{IsPlaceOfFault};

use crate::pass::{has_pass, mark_length};
use ds_line::{LineFault, read_item};
use ds_names::{read_byte, read_decimal};
use line_io::{LONGEST_LINE, Lines};
use script_commands::{CommandFault, ScriptCommand, read_line_after};
use std::alloc::Global;

/// Returns the most bytes that the line may have, without its newline: with its mark, a trace's line has at most 4096.
pub(crate) fn longest(line: &[u8]) -> usize
    ensures { IsAtLimit result }
{
    LONGEST_LINE - mark_length(line)
}

/// Returns where the line after `before` others, which `Lines::pull` found too long, becomes too long for a trace. If its newline was
/// read, it is the current line; otherwise it is in the front.
pub(crate) fn place_of_long(lines: &Lines, before: u64) -> usize
    ensures { IsAtLimit result }
{
    if lines.count() > before {
        longest(lines.line())
    } else {
        longest(lines.front())
    }
}

/// Returns where a line that isn't a command is bad. `line` has its newline.
pub(crate) fn place_of_command(alloc: Global, line: &[u8], number: u64) -> usize
    requires ends { EndsLine line.now }
    requires short { length line.now ≤ 4097 }
    ensures { IsLineBadAt (has_pass line.now) (number - 1) line.now result }
{
    if !has_pass(line) {
        return place_after_pass(alloc, line, number.saturating_sub(1));
    }
    let Some((_, rest)) = read_decimal(line, 63) else {
        return 0;
    };
    let Some(rest) = read_byte(rest, b' ') else {
        return 0;
    };
    let before = line.len().saturating_sub(rest.len());
    before.saturating_add(place_after_pass(alloc, rest, 1))
}

// Likewise for the text after a pass, of a line after `before` others. Only the first line may be `ring N`.
fn place_after_pass(alloc: Global, text: &[u8], before: u64) -> usize
    requires { EndsLine text.now }
    ensures { IsTextBadAt before text.now result }
{
    if let Some(place) = place_of_merge(text) {
        return place;
    }
    place_of_read(&read_line_after(alloc, text, before))
}

// Likewise for a line that was parsed. A valid offer has an item that the trace's format doesn't: the place of its
// item.
fn place_of_read(read: &Result<ScriptCommand, CommandFault>) -> usize
    ensures bad { IfErr read.now (λ fault. IsPlaceOfFault fault result) }
    ensures good { IfOk read.now (λ command. IsUncarried command result) }
{
    match read {
        Err(CommandFault::BadLine { place, .. }) => *place,
        Ok(ScriptCommand::Offer(_)) => 6,
        _ => 0,
    }
}

// Returns where the count of a Merge, or what is around it, is bad, if the line begins with `merge`.
fn place_of_merge(text: &[u8]) -> Option<usize>
    ensures { IfSome result (λ place. (rest : List ℕ) × (text.now ≡ codes "merge" ++ rest)) }
{
    if !text.starts_with(b"merge") {
        return None;
    }
    let rest = &text[5..];
    if let Some(byte) = rest.first()
        && byte.is_ascii_alphanumeric()
    {
        return None;
    }
    let Some(rest) = read_byte(rest, b' ') else {
        return Some(5);
    };
    let Some((_, rest)) = read_decimal(rest, 256) else {
        return Some(6);
    };
    Some(text.len().saturating_sub(rest.len()))
}

/// Returns where the line of this number, which must be an item's, is bad: at its first byte if there is none. It is the
/// last line that was read, or the one after it.
pub(crate) fn place_of_missing(alloc: Global, lines: &Lines, number: u64) -> usize {
    let is_front = number > lines.count();
    if is_front && lines.front().is_empty() {
        return 0;
    }
    if is_front || lines.line().len() > LONGEST_LINE + 1 {
        return LONGEST_LINE;
    }
    place_of_item(alloc, lines.line())
}

// Returns where a line that isn't an item's is bad. `line` has its newline.
fn place_of_item(alloc: Global, line: &[u8]) -> usize {
    if !line.starts_with(b"+ ") {
        return 0;
    }
    match read_item(alloc, &line[2..]) {
        Err(LineFault::BadLine { place }) => place.saturating_add(2),
        Ok((_, used)) if used != line.len() - 2 => used.saturating_add(2),
        _ => 2,
    }
}
