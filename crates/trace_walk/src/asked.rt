//! The command of an entry of a trace.

ghost use Rattle.std.specs.Prelude.{◌≡◌, ◌≢◌, ◌≤◌, ◌↔◌, ℕ, List, None, IfOk, IfErr, IfSome, IfNone, IsTrue, length};
ghost use Rattle.line_io.specs.Lines.{EndsLine};
ghost use Rattle.ds_entry.specs.declared.item.Item.{Item as AnItem};
ghost use Rattle.script_commands.specs.Command.{store_command};
ghost use Rattle.trace_walk.specs.Text.{pass_text, merge_text, plus_text, Carries, CarriesLine, MayMerge};
ghost use Rattle.trace_walk.specs.Head.{IsHeadOf, HasNoHead};

use crate::header::Format;
use crate::number::number_at;
use ds_entry::{Item, Items};
use ds_line::{LineFault, read_item};
use ds_names::{NoRoom, read_byte};
use script_commands::{CommandFault, ScriptCommand, read_line};
use std::alloc::Global;

/// The command of an entry: a line's, or a Merge, whose items have lines of their own.
#[derive(Drop)]
pub enum Asked {
    Line(ScriptCommand),
    Merge(Items),
}

/// The first line of an entry: the command, or how many items a Merge has.
#[derive(Drop)]
pub enum Head {
    Line(ScriptCommand),
    Merge(u64),
}

/// Why a line can't be read.
#[derive(Clone, Copy, PartialEq, Eq)]
pub enum AskedFault {
    BadLine,
    NoRoom,
}

/// Reads the first line of an entry, `> PASS COMMAND` or `> PASS merge N`, given with its newline.
pub fn read_head(alloc: Global, line: &[u8], format: Format) -> Result<(u64, Head), AskedFault>
    requires line { EndsLine line.now }
    requires short { length line.now ≤ 4097 }
    ensures found { IfOk result (λ r. IsHeadOf format r.0 r.1 line.now) }
    ensures none { IfErr result (λ fault. fault ≡ AskedFault.BadLine → HasNoHead format line.now) }
{
    let Some((pass, rest)) = read_pass(line) else {
        return Err(AskedFault::BadLine);
    };
    if let Some(count) = read_merge(rest) {
        return Ok((pass, Head::Merge(count)));
    }
    match read_line(alloc, rest) {
        Ok(command) => {
            if !may_stand(&command, format) {
                return Err(AskedFault::BadLine);
            }
            Ok((pass, Head::Line(command)))
        }
        Err(CommandFault::BadLine { .. }) => Err(AskedFault::BadLine),
        Err(CommandFault::NoRoom) => Err(AskedFault::NoRoom),
    }
}

// Reads `> PASS ` and returns the pass and the rest.
fn read_pass(line: &[u8]) -> Option<(u64, &[u8])>
    ensures found { IfSome result (λ r. (r.0 ≤ 63) × (line.now ≡ pass_text r.0 r.1.now)) }
    ensures none { IfNone result ((pass : ℕ) (after : List ℕ) → pass ≤ 63 → line.now ≢ pass_text pass after) }
{
    let rest = read_byte(line, b'>')?;
    let rest = read_byte(rest, b' ')?;
    number_at(rest, 63, b' ')
}

// Reads `merge N`, N from 0 to 256, and the newline.
fn read_merge(text: &[u8]) -> Option<u64>
    ensures found { IfSome result (λ count. (count ≤ 256) × (text.now ≡ merge_text count)) }
    ensures none { IfNone result ((count : ℕ) → count ≤ 256 → text.now ≢ merge_text count) }
{
    if !text.starts_with(b"merge ") {
        return None;
    }
    let (count, rest) = number_at(&text[6..], 256, b'\n')?;
    if !rest.is_empty() {
        return None;
    }
    Some(count)
}

// Whether the command is a store's, and the format has its items.
fn may_stand(command: &ScriptCommand, format: Format) -> bool
    ensures { IsTrue result ↔ ((store_command command.now ≢ None) × CarriesLine format command.now) }
{
    match command {
        ScriptCommand::Offer(item) => may_carry(item, format),
        ScriptCommand::Store(_) => true,
        _ => false,
    }
}

// Whether the format has such an item: format 1 has no floors.
fn may_carry(item: &Item, format: Format) -> bool
    ensures { IsTrue result ↔ Carries format item.now }
{
    match (item, format) {
        (Item::Floor(_), Format::One) => false,
        _ => true,
    }
}

/// Reads `+ ITEM`, given with its newline.
pub(crate) fn read_plus(alloc: Global, line: &[u8], format: Format) -> Result<Item, AskedFault>
    ensures found { IfOk result (λ item. MayMerge format item × (line.now ≡ plus_text item)) }
    ensures none { IfErr result (λ fault. fault ≡ AskedFault.BadLine → (item : AnItem) → MayMerge format item → line.now ≢ plus_text item) }
{
    let Some(text) = read_byte(line, b'+') else {
        return Err(AskedFault::BadLine);
    };
    let Some(text) = read_byte(text, b' ') else {
        return Err(AskedFault::BadLine);
    };
    match read_item(alloc, text) {
        Ok((item, used)) => {
            if used != text.len() {
                return Err(AskedFault::BadLine);
            }
            if !may_carry(&item, format) {
                return Err(AskedFault::BadLine);
            }
            Ok(item)
        }
        Err(LineFault::BadLine { .. }) => Err(AskedFault::BadLine),
        Err(LineFault::NoRoom) => Err(AskedFault::NoRoom),
    }
}
