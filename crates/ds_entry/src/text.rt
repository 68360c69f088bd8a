//! Texts: the values of entries of the kind str.

ghost use Rattle.std.specs.Prelude.{◌≡◌, ◌≢◌, ℕ, [], IfOk, IfErr, OnErr};
ghost use Rattle.std.specs.Bool.{◌==◌};
ghost use Rattle.std.proofs.lemmas.Cmp.{nat_list_eq_equiv};
ghost use Rattle.std.specs.Cmp.{partial_equiv_from_equiv};
ghost use Rattle.std.specs.Cmp.Lexicographic.{pointwise};
ghost use Rattle.std.specs.List.{list_all};
ghost use Rattle.ds_entry.specs.Value.{is_text_byte, IsText};
ghost use Rattle.ds_entry.specs.ValueFault.{IsTextFault};
ghost use Rattle.ds_entry.specs.declared.text.TextFault.TheVariants.{NoRoom as LacksRoom};

use crate::bytes::copy_bytes;
use ds_names::NoRoom;
use std::alloc::Global;
use std::marker::Model;
use thiserror::Error;

/// Why bytes aren't a text. The causes are judged in this order.
#[derive(Clone, Copy, Debug, PartialEq, Eq, Error)]
pub enum TextFault {
    /// There are more than 256 bytes.
    #[error("a text has at most 256 bytes")]
    TooLong,
    /// A byte isn't printable ASCII, 0x20 to 0x7E.
    #[error("a text has printable ASCII alone")]
    BadText,
    /// Out of memory.
    #[error("out of memory")]
    NoRoom,
}

// Returns whether the byte is printable ASCII.
fn is_text_byte(b: u8) -> bool
    ensures { result ≡ is_text_byte b }
{
    0x20 <= b && b <= 0x7e
}

// Returns whether all bytes are printable ASCII.
fn is_printable(bytes: &[u8]) -> bool
    ensures { result ≡ list_all is_text_byte bytes.now }
{
    bytes.iter().all(|b| is_text_byte(*b))
}

/// A value of the kind str, as in MINIX 3's data store: 0 to 256 bytes of printable ASCII. The limits are this project's.
#[derive(Debug, Drop)]
pub struct Text {
    bytes: Vec<u8>,
}

impl Model for Text {
    ghost use Rattle.std.specs.Prelude.{ℕ, List};
    ghost use Rattle.ds_entry.specs.Value.{IsText};

    ghost Value = { List ℕ };

    ghost view = { λ t. t.bytes.items };

    ghost invariant = { λ t. IsText t.bytes.items };
}

impl Text {
    /// Copies the bytes into a text. Refuses more than 256 as TooLong, then others than printable ASCII as BadText. Then
    /// reports NoRoom if memory runs out; an empty text takes none.
    pub fn read(alloc: Global, bytes: &[u8]) -> Result<Text, TextFault>
        ensures found { IfOk result (λ text. text ≡ bytes.now) }
        ensures valid { IfOk result IsText }
        ensures refused { IfErr result (λ fault. IsTextFault fault bytes.now) }
        ensures room { IfErr result (λ fault. fault ≡ LacksRoom → bytes.now ≢ []) }
    {
        if bytes.len() > 256 {
            return Err(TextFault::TooLong);
        }
        if !is_printable(bytes) {
            return Err(TextFault::BadText);
        }
        match copy_bytes(alloc, bytes) {
            Ok(bytes) => Ok(Text { bytes }),
            Err(_) => Err(TextFault::NoRoom),
        }
    }

    /// Returns the text's bytes, 0 to 256 of printable ASCII.
    pub fn bytes(&self) -> &[u8]
        ensures value { result.now ≡ self.now }
        ensures valid { IsText self.now }
    {
        &self.bytes
    }

    /// Copies the text. Fails only if memory runs out; the copy of an empty text takes none.
    pub fn copy(&self, alloc: Global) -> Result<Text, NoRoom>
        ensures same { IfOk result (λ text. text ≡ self.now) }
        ensures room { OnErr result (self.now ≢ []) }
    {
        Ok(Text {
            bytes: copy_bytes(alloc, &self.bytes)?,
        })
    }
}

impl PartialEq for Text {
    ghost eq = { pointwise ◌==◌ };

    ghost laws = { partial_equiv_from_equiv nat_list_eq_equiv };

    fn eq(&self, other: &Text) -> bool {
        self.bytes() == other.bytes()
    }
}

impl Eq for Text {
    ghost laws = { nat_list_eq_equiv };
}
