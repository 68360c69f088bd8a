//! Values that end a line.

ghost use Rattle.std.specs.Prelude.{IfOk, IfErr};
ghost use Rattle.ds_names.specs.declared.kind.Kind.TheVariants.{Label, U32, Str, Mem};
ghost use Rattle.ds_line.specs.Piece.{Found, last_value, StopsValue};

use crate::expected::Expected;
use crate::part_fault::{PartFault, stop_at};
use crate::parts::endpoint_at;
use crate::values::{hex_at, quoted_at};
use ds_entry::{Blob, Text, Value};
use ds_names::{Kind, read_byte, read_decimal};
use std::alloc::Global;

/// Reads a value of the kind and the newline after it, and returns the value with the bytes after both. For callers that
/// read lines of their own that end with a value.
///
/// Notes each of the two before it reads it. A label's value is `generation/slot`, of any generation. Refuses bytes that
/// don't begin with the two as BadPart. Then reports NoRoom if memory runs out, which only texts and blobs that aren't empty take.
pub fn last_value_at<'a>(
    alloc: Global,
    kind: Kind,
    bytes: &'a [u8],
    expected: &mut Expected,
) -> Result<(Value, &'a [u8]), PartFault>
    ensures found { IfOk result (λ r. Found (last_value kind) r.0 bytes.now r.1.now) }
    ensures stop { IfErr result (λ stop. StopsValue kind stop bytes.now) }
{
    *expected = Expected::Value(kind);
    match kind {
        Kind::Label => label_at(bytes, expected),
        Kind::U32 => number_at(bytes, expected),
        Kind::Str => text_at(alloc, bytes, expected),
        Kind::Mem => blob_at(alloc, bytes, expected),
    }
}

// Reads a label's value.
fn label_at<'a>(bytes: &'a [u8], expected: &mut Expected) -> Result<(Value, &'a [u8]), PartFault>
    ensures found { IfOk result (λ r. Found (last_value Label) r.0 bytes.now r.1.now) }
    ensures stop { IfErr result (λ stop. StopsValue Label stop bytes.now) }
{
    let Some(read) = endpoint_at(bytes) else {
        return Err(stop_at(bytes));
    };
    let (endpoint, rest) = read;
    *expected = Expected::End;
    let Some(rest) = read_byte(rest, b'\n') else {
        return Err(stop_at(rest));
    };
    Ok((Value::Label(endpoint), rest))
}

// Reads a number.
fn number_at<'a>(bytes: &'a [u8], expected: &mut Expected) -> Result<(Value, &'a [u8]), PartFault>
    ensures found { IfOk result (λ r. Found (last_value U32) r.0 bytes.now r.1.now) }
    ensures stop { IfErr result (λ stop. StopsValue U32 stop bytes.now) }
{
    let Some((number, rest)) = read_decimal(bytes, u32::MAX as u64) else {
        return Err(stop_at(bytes));
    };
    *expected = Expected::End;
    let Some(rest) = read_byte(rest, b'\n') else {
        return Err(stop_at(rest));
    };
    Ok((Value::U32(number as u32), rest))
}

// Reads a text.
fn text_at<'a>(
    alloc: Global,
    bytes: &'a [u8],
    expected: &mut Expected,
) -> Result<(Value, &'a [u8]), PartFault>
    ensures found { IfOk result (λ r. Found (last_value Str) r.0 bytes.now r.1.now) }
    ensures stop { IfErr result (λ stop. StopsValue Str stop bytes.now) }
{
    let mut block = [0u8; 256];
    let Some((len, rest)) = quoted_at(bytes, &mut block) else {
        return Err(stop_at(bytes));
    };
    *expected = Expected::End;
    let Some(rest) = read_byte(rest, b'\n') else {
        return Err(stop_at(rest));
    };
    match Text::read(alloc, &block[..len]) {
        Ok(text) => Ok((Value::Str(text), rest)),
        Err(_) => Err(PartFault::NoRoom),
    }
}

// Reads a blob.
fn blob_at<'a>(
    alloc: Global,
    bytes: &'a [u8],
    expected: &mut Expected,
) -> Result<(Value, &'a [u8]), PartFault>
    ensures found { IfOk result (λ r. Found (last_value Mem) r.0 bytes.now r.1.now) }
    ensures stop { IfErr result (λ stop. StopsValue Mem stop bytes.now) }
{
    let mut block = [0u8; 1024];
    let Some((len, rest)) = hex_at(bytes, &mut block) else {
        return Err(stop_at(bytes));
    };
    *expected = Expected::End;
    let Some(rest) = read_byte(rest, b'\n') else {
        return Err(stop_at(rest));
    };
    match Blob::read(alloc, &block[..len]) {
        Ok(blob) => Ok((Value::Mem(blob), rest)),
        Err(_) => Err(PartFault::NoRoom),
    }
}
