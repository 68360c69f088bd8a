//! Writing the line of a change, or its value alone.

ghost use Rattle.std.specs.Prelude.{◌≡◌, ◌==◌, ◌||◌, not, ◌<◌, ◌≤◌, ◌+◌, ◌*◌, ◌++◌, List, ℕ, [], ◌∷◌};
ghost use Rattle.std.specs.Prelude.{length, take, drop, OnOk, OnErr, IfOk};
ghost use Rattle.std.specs.List.{flat_map, prefix_len};
ghost use Rattle.hex.specs.Hex.{encode_lower};
ghost use Rattle.ds_line.specs.Part.{texts};
ghost use Rattle.ds_line.specs.Reading.{up_to_mark};
ghost use Rattle.ds_line.specs.Spelling.{escaped, escaped_byte, kind_word, quoted, spelling, value_part};

use crate::block::put;
use crate::hex_digits::digits_of;
use crate::line::Line;
use ds_entry::{Body, Change, Value};
use ds_names::{Kind, NoRoom};
use itoa::Buffer;
use std::alloc::Global;

/// Returns the line of a change, newline included. Fails only if memory runs out.
pub fn write_change(alloc: Global, change: &Change) -> Result<Vec<u8>, NoRoom>
    ensures { IfOk result (λ line. line.items ≡ spelling change.now) }
{
    let mut line = Vec::new(alloc);
    append_change(&mut line, change)?;
    Ok(line)
}

/// Appends the line of a change, newline included, to a buffer. If memory runs out, the buffer is unchanged.
pub fn append_change(buffer: &mut Vec<u8>, change: &Change) -> Result<(), NoRoom>
    ensures written { OnOk result (buffer.new.items ≡ buffer.old.items ++ spelling change.now) }
    ensures unchanged { OnErr result (buffer.new.items ≡ buffer.old.items) }
{
    let mut line = Line::new();
    put_front(&mut line, change);
    match change.body() {
        Body::Put(Value::U32(number)) => {
            line.put(b"= ");
            line.put_number(*number);
            line.put(b"\n");
        }
        Body::Put(value) => {
            line.put(b"= ");
            return append_value(buffer, line.bytes(), value, b"\n");
        }
        Body::Gone => line.put(b"-\n"),
    }
    append(buffer, line.bytes())
}

// Puts a change's line up to its `=` or `-` into `line`.
fn put_front(line: &mut Line, change: &Change)
    requires { line.old ≡ [] }
    ensures written { line.new ≡ texts (up_to_mark change.now.key change.now.owner change.now.version) }
    ensures fits { length line.new ≤ 192 }
{
    line.put(change.key().name.bytes());
    put_kind(line, change.key().kind);
    line.put(change.owner().bytes());
    line.put(b" ");
    line.put_number(change.version().epoch.number());
    line.put(b".");
    line.put_number(change.version().seq);
    line.put(b" ");
}

// Puts the word of a kind into `line`, between two spaces.
#[inline(always)]
fn put_kind(line: &mut Line, kind: Kind)
    requires { length line.old ≤ 64 }
    ensures written { line.new ≡ line.old ++ 32 ∷ (kind_word kind ++ 32 ∷ []) }
    ensures fits { length line.new ≤ length line.old + 7 }
{
    match kind {
        Kind::Label => line.put(b" label "),
        Kind::U32 => line.put(b" u32 "),
        Kind::Str => line.put(b" str "),
        Kind::Mem => line.put(b" mem "),
    }
}

/// Appends a value between two texts, spelled as in the line of a change. If memory runs out, the buffer is unchanged.
pub fn append_value(
    buffer: &mut Vec<u8>,
    before: &[u8],
    value: &Value,
    after: &[u8],
) -> Result<(), NoRoom>
    ensures written { OnOk result (buffer.new.items ≡ buffer.old.items ++ (before.now ++ ((value_part value.now).text ++ after.now))) }
    ensures unchanged { OnErr result (buffer.new.items ≡ buffer.old.items) }
{
    match value {
        Value::Label(endpoint) => {
            let mut generation_digits = Buffer::new();
            let generation = generation_digits
                .format(endpoint.generation().number())
                .as_bytes();
            let mut slot_digits = Buffer::new();
            let slot = slot_digits.format(endpoint.slot()).as_bytes();
            append_all(buffer, &[before, generation, b"/", slot, after])
        }
        Value::U32(number) => {
            let mut digits = Buffer::new();
            append_all(buffer, &[before, digits.format(*number).as_bytes(), after])
        }
        Value::Str(text) => append_text(buffer, before, text.bytes(), after),
        Value::Mem(blob) => append_blob(buffer, before, blob.bytes(), after),
    }
}

/// Appends a text. If memory runs out, the buffer is unchanged.
#[inline(always)]
pub fn append(buffer: &mut Vec<u8>, text: &[u8]) -> Result<(), NoRoom>
    ensures written { OnOk result (buffer.new.items ≡ buffer.old.items ++ text.now) }
    ensures unchanged { OnErr result (buffer.new.items ≡ buffer.old.items) }
{
    buffer.extend_from_slice(text)?;
    Ok(())
}

/// Appends the texts, in order. If memory runs out, the buffer is unchanged.
pub fn append_all(buffer: &mut Vec<u8>, texts: &[&[u8]]) -> Result<(), NoRoom>
    ensures written { OnOk result (buffer.new.items ≡ buffer.old.items ++ flat_map (λ text. text.now) texts.now) }
    ensures unchanged { OnErr result (buffer.new.items ≡ buffer.old.items) }
{
    let start = buffer.len();
    for text in texts {
        if buffer.extend_from_slice(text).is_err() {
            buffer.truncate(start);
            return Err(NoRoom);
        }
    }
    Ok(())
}

// Appends a quoted text between two others. If memory runs out, the buffer is unchanged.
fn append_text(buffer: &mut Vec<u8>, before: &[u8], text: &[u8], after: &[u8]) -> Result<(), NoRoom>
    ensures written { OnOk result (buffer.new.items ≡ buffer.old.items ++ (before.now ++ (quoted text.now ++ after.now))) }
    ensures unchanged { OnErr result (buffer.new.items ≡ buffer.old.items) }
{
    let start = buffer.len();
    append_all(buffer, &[before, b"\""])?;
    let written = append_closed(buffer, text, after);
    if written.is_err() {
        buffer.truncate(start);
    }
    written
}

// Appends the escaped bytes of a text, the closing quote and another text. If memory runs out, the buffer is unchanged.
fn append_closed(buffer: &mut Vec<u8>, text: &[u8], after: &[u8]) -> Result<(), NoRoom>
    ensures written { OnOk result (buffer.new.items ≡ buffer.old.items ++ (escaped text.now ++ 34 ∷ after.now)) }
    ensures unchanged { OnErr result (buffer.new.items ≡ buffer.old.items) }
{
    let start = buffer.len();
    append_escaped(buffer, text)?;
    let written = append_all(buffer, &[b"\"", after]);
    if written.is_err() {
        buffer.truncate(start);
    }
    written
}

// Appends the escaped bytes of a text. If memory runs out, the buffer is unchanged.
fn append_escaped(buffer: &mut Vec<u8>, text: &[u8]) -> Result<(), NoRoom>
    ensures written { OnOk result (buffer.new.items ≡ buffer.old.items ++ escaped text.now) }
    ensures unchanged { OnErr result (buffer.new.items ≡ buffer.old.items) }
{
    let start = buffer.len();
    let mut rest = text;
    while let Some((first, after)) = rest.split_first() {
        let with_backslash = [b'\\', *first];
        let spelled = &with_backslash[spelled_from(*first)..];
        let (plain, more) = after.split_at(plain_len(after));
        match append_all(buffer, &[spelled, plain]) {
            Ok(()) => rest = more,
            Err(fault) => {
                buffer.truncate(start);
                return Err(fault);
            }
        }
    }
    Ok(())
}

// Returns the number of bytes before the first one that needs an escape.
fn plain_len(text: &[u8]) -> usize
    ensures { result ≡ prefix_len (λ b. not (b == 34 || b == 92)) text.now }
{
    text.iter()
        .take_while(|b| !(**b == b'"' || **b == b'\\'))
        .count()
}

// Returns where the escaped form begins in a backslash and the byte: 0 if it needs the backslash, else 1.
fn spelled_from(byte: u8) -> usize
    ensures fits { result ≤ 1 }
    ensures spelled { drop result (92 ∷ byte ∷ []) ≡ escaped_byte byte }
{
    if byte == b'"' || byte == b'\\' { 0 } else { 1 }
}

// Appends a blob in hex between two texts. If memory runs out, the buffer is unchanged.
fn append_blob(buffer: &mut Vec<u8>, before: &[u8], blob: &[u8], after: &[u8]) -> Result<(), NoRoom>
    requires { length blob.now ≤ 1024 }
    ensures written { OnOk result (buffer.new.items ≡ buffer.old.items ++ (before.now ++ (encode_lower blob.now ++ after.now))) }
    ensures unchanged { OnErr result (buffer.new.items ≡ buffer.old.items) }
{
    let mut block = [0u8; 2048];
    let written = write_sixteens(blob, &mut block);
    let rest = &blob[written..];
    let mut tail = [0u8; 30];
    let digits = &mut tail[..2 * rest.len()];
    match hex::encode_to_slice(rest, digits) {
        Ok(()) => append_all(buffer, &[before, &block[..2 * written], digits, after]),
        Err(_) => Err(NoRoom),
    }
}

// Writes the hex of a blob to the front of the block, 16 bytes at a time. Returns the number of the blob's bytes that were
// written. Fewer than 16 are left.
fn write_sixteens(blob: &[u8], block: &mut [u8; 2048]) -> usize
    requires { length blob.now ≤ 1024 }
    ensures written { take (2 * result) block.new ≡ encode_lower (take result blob.now) }
    ensures fits { result ≤ length blob.now }
    ensures rest { length blob.now < result + 16 }
{
    for group in 0..64usize {
        let Some((sixteen, _)) = blob[16 * group..].split_first_chunk::<16>() else {
            return 16 * group;
        };
        let digits = digits_of(sixteen);
        put(block, 32 * group, &digits);
    }
    1024
}
