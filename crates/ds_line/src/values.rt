//! Readers of quoted texts and of blobs in hex.

ghost use Rattle.std.specs.Prelude.{◌≡◌, ◌≢◌, ◌++◌, ◌≤◌, List, ℕ, IfSome, IfNone, IsTrue, take};
ghost use Rattle.hex.specs.Hex.{IsBytes, encode_lower};
ghost use Rattle.ds_names.specs.Run.{Begins};
ghost use Rattle.ds_entry.specs.Value.{is_text_byte, IsText, IsBlob};
ghost use Rattle.ds_line.specs.Part.{Quoted, Hex, run_of};
ghost use Rattle.ds_line.specs.Spelling.{escaped_byte, quoted};

use crate::block::put;
use crate::hex_digits::{ends_digits, pair_at, sixteen_at};
use ds_names::read_byte;

// Reads one byte of a quoted text: `\"` is a quote, `\\` a backslash, and any other printable byte is itself.
fn text_byte_at(bytes: &[u8]) -> Option<(u8, &[u8])>
    ensures found { IfSome result (λ r. bytes.now ≡ escaped_byte r.0 ++ r.1.now) }
    ensures valid { IfSome result (λ r. IsTrue (is_text_byte r.0)) }
    ensures none { IfNone result ((b : ℕ) (rest : List ℕ) → IsTrue (is_text_byte b) → bytes.now ≢ escaped_byte b ++ rest) }
{
    let (first, rest) = bytes.split_first()?;
    if *first == b'\\' {
        let (second, rest) = rest.split_first()?;
        if *second == b'"' || *second == b'\\' {
            Some((*second, rest))
        } else {
            None
        }
    } else if *first != b'"' && 0x20 <= *first && *first <= 0x7e {
        Some((*first, rest))
    } else {
        None
    }
}

/// Reads the quoted text at the front into the block. Returns its length, and the bytes after the closing quote. `None`
/// if the bytes don't begin with a quoted text of at most 256 bytes.
pub fn quoted_at<'a>(bytes: &'a [u8], block: &mut [u8; 256]) -> Option<(usize, &'a [u8])>
    ensures found { IfSome result (λ r. Begins (run_of Quoted) bytes.now (quoted (take r.0 block.new)) r.1.now) }
    ensures fits { IfSome result (λ r. r.0 ≤ 256) }
    ensures valid { IfSome result (λ r. IsText (take r.0 block.new)) }
    ensures none { IfNone result ((text rest : List ℕ) → IsText text → ¬ Begins (run_of Quoted) bytes.now (quoted text) rest) }
{
    let Some(text) = read_byte(bytes, b'"') else {
        return None;
    };
    let mut rest = text;
    for len in 0..256usize {
        if let Some(after) = read_byte(rest, b'"') {
            return Some((len, after));
        }
        let Some((byte, after)) = text_byte_at(rest) else {
            return None;
        };
        block[len] = byte;
        rest = after;
    }
    let Some(rest) = read_byte(rest, b'"') else {
        return None;
    };
    Some((256, rest))
}

// Reads groups of 32 hex digits at the front into the block. Returns the number of bytes stored, and the bytes after the
// last whole group.
fn sixteens_at<'a>(bytes: &'a [u8], block: &mut [u8; 1024]) -> (usize, &'a [u8])
    ensures found { bytes.now ≡ encode_lower (take result.0 block.new) ++ result.1.now }
    ensures each { IsBytes (take result.0 block.new) }
    ensures fits { result.0 ≤ 1024 }
{
    let mut rest = bytes;
    let mut sixteen = [0u8; 16];
    for group in 0..64usize {
        let Some(after) = sixteen_at(rest, &mut sixteen) else {
            return (16 * group, rest);
        };
        put(block, 16 * group, &sixteen);
        rest = after;
    }
    (1024, rest)
}

/// Reads the hex of a blob at the front into the block. Returns the blob's length, and the bytes after the longest run
/// of hex digits. `None` if the run has an odd number of digits, or more than 2048.
pub fn hex_at<'a>(bytes: &'a [u8], block: &mut [u8; 1024]) -> Option<(usize, &'a [u8])>
    ensures found { IfSome result (λ r. Begins (run_of Hex) bytes.now (encode_lower (take r.0 block.new)) r.1.now) }
    ensures fits { IfSome result (λ r. r.0 ≤ 1024) }
    ensures valid { IfSome result (λ r. IsBlob (take r.0 block.new)) }
    ensures none { IfNone result ((blob rest : List ℕ) → IsBlob blob → ¬ Begins (run_of Hex) bytes.now (encode_lower blob) rest) }
{
    let (read, after) = sixteens_at(bytes, block);
    let mut rest = after;
    for len in read..1024 {
        let Some((byte, after)) = pair_at(rest) else {
            return if ends_digits(rest) {
                Some((len, rest))
            } else {
                None
            };
        };
        block[len] = byte;
        rest = after;
    }
    if ends_digits(rest) {
        Some((1024, rest))
    } else {
        None
    }
}
