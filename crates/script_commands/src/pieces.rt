//! Readers of a line's pieces.

#![tactic(auto, unfolding(crate::specs::Reads::ReadsOr))]

ghost use Rattle.std.specs.Prelude.{◌≡◌, ◌≢◌, ◌∷◌, List, ℕ, Bool, length, IfErr, OnOk, IfSome, IfNone};
ghost use Rattle.ds_line.specs.declared.part_fault.PartFault.TheVariants.{BadPart};
ghost use Rattle.script_commands.specs.Pieces.{an_endpoint, an_initial, a_mode, a_name, a_kind, a_key, a_generation, a_seq, a_version};
ghost use Rattle.script_commands.specs.Pieces.{a_number, a_place, a_kinds, a_value, ValueTakesMemory, an_end, initial_word, mode_word};
ghost use Rattle.script_commands.specs.Reads.{Reads, ReadsOr};

use ds_entry::Value;
use ds_line::{
    Expected, PartFault, after_name, endpoint_at, kind_at, last_value_at, name_at, stop_at, word_at,
};
use ds_names::limits::LAST_GENERATION;
use ds_names::{Endpoint, Generation, Key, Kind, Kinds, Name, Version, read_byte, read_decimal};
use std::alloc::Global;

/// The unread rest of a line. Each reader takes a piece off its front, with the byte before it that separates it from
/// the piece before. It records which part it reads next, so where it stops, that is the bad part.
#[derive(Clone, Copy)]
pub(crate) struct Rest<'a> {
    pub bytes: &'a [u8],
    /// The part that is read next.
    pub expected: Expected,
}

impl Rest<'_> {
    /// Reads one byte.
    pub fn byte(&mut self, byte: u8, expected: Expected) -> Result<(), PartFault>
        ensures found { OnOk result (self.old.bytes.now ≡ byte ∷ self.new.bytes.now) }
        ensures stop { IfErr result (λ stop. stop ≡ BadPart (length self.old.bytes.now)) }
        ensures none { IfErr result (λ stop. (rest : List ℕ) → self.old.bytes.now ≢ byte ∷ rest) }
    {
        self.expected = expected;
        match read_byte(self.bytes, byte) {
            Some(rest) => {
                self.bytes = rest;
                Ok(())
            }
            None => Err(stop_at(self.bytes)),
        }
    }

    pub fn endpoint(&mut self, expected: Expected) -> Result<Endpoint, PartFault>
        ensures { Reads an_endpoint self.old.bytes.now result self.new.bytes.now }
    {
        self.byte(b' ', Expected::Space)?;
        self.expected = expected;
        let Some(read) = endpoint_at(self.bytes) else {
            return Err(stop_at(self.bytes));
        };
        let (endpoint, rest) = read;
        self.bytes = rest;
        Ok(endpoint)
    }

    /// Reads `new` or `over`. Returns true for `over`.
    #[inline(always)]
    pub fn mode(&mut self) -> Result<bool, PartFault>
        ensures { Reads a_mode self.old.bytes.now result self.new.bytes.now }
    {
        self.byte(b' ', Expected::Space)?;
        self.expected = Expected::Mode;
        let (word, rest) = word_at(self.bytes);
        let Some(overwrite) = mode_of(word) else {
            return Err(stop_at(self.bytes));
        };
        self.bytes = rest;
        Ok(overwrite)
    }

    /// Reads `first` or `later`. Returns true for `first`.
    pub fn initial(&mut self) -> Result<bool, PartFault>
        ensures { Reads an_initial self.old.bytes.now result self.new.bytes.now }
    {
        self.byte(b' ', Expected::Space)?;
        self.expected = Expected::Initial;
        let (word, rest) = word_at(self.bytes);
        let Some(initial) = initial_of(word) else {
            return Err(stop_at(self.bytes));
        };
        self.bytes = rest;
        Ok(initial)
    }

    #[inline(always)]
    pub fn name(&mut self, expected: Expected) -> Result<Name, PartFault>
        ensures { Reads a_name self.old.bytes.now result self.new.bytes.now }
    {
        self.byte(b' ', Expected::Space)?;
        self.expected = expected;
        let Some(name) = name_at(self.bytes) else {
            return Err(stop_at(self.bytes));
        };
        self.bytes = after_name(self.bytes, &name);
        Ok(name)
    }

    /// Reads the word of a kind.
    #[inline(always)]
    pub fn kind(&mut self) -> Result<Kind, PartFault>
        ensures { Reads a_kind self.old.bytes.now result self.new.bytes.now }
    {
        self.byte(b' ', Expected::Space)?;
        self.expected = Expected::Kind;
        let Some((kind, rest)) = kind_at(self.bytes) else {
            return Err(stop_at(self.bytes));
        };
        self.bytes = rest;
        Ok(kind)
    }

    /// Reads a key: a name and a kind.
    #[inline(always)]
    pub fn key(&mut self) -> Result<Key, PartFault>
        ensures { Reads a_key self.old.bytes.now result self.new.bytes.now }
    {
        let name = self.name(Expected::Name)?;
        let kind = self.kind()?;
        Ok(Key { name, kind })
    }

    pub fn generation(&mut self, expected: Expected) -> Result<Generation, PartFault>
        ensures { Reads a_generation self.old.bytes.now result self.new.bytes.now }
    {
        self.byte(b' ', Expected::Space)?;
        self.expected = expected;
        let Some((number, rest)) = read_decimal(self.bytes, LAST_GENERATION as u64) else {
            return Err(stop_at(self.bytes));
        };
        let Some(generation) = Generation::of(number as u32) else {
            return Err(stop_at(self.bytes));
        };
        self.bytes = rest;
        Ok(generation)
    }

    // Reads a dot and a sequence number.
    fn seq(&mut self) -> Result<u32, PartFault>
        ensures { Reads a_seq self.old.bytes.now result self.new.bytes.now }
    {
        self.byte(b'.', Expected::Dot)?;
        self.expected = Expected::Seq;
        let Some((number, rest)) = read_decimal(self.bytes, 4294967295) else {
            return Err(stop_at(self.bytes));
        };
        self.bytes = rest;
        Ok(number as u32)
    }

    /// Reads a version: an epoch, a dot and a sequence number.
    #[inline(always)]
    pub fn version(&mut self) -> Result<Version, PartFault>
        ensures { Reads a_version self.old.bytes.now result self.new.bytes.now }
    {
        let epoch = self.generation(Expected::Epoch)?;
        let seq = self.seq()?;
        Ok(Version { epoch, seq })
    }

    /// Reads a number below 2^32.
    pub fn number(&mut self, expected: Expected) -> Result<u32, PartFault>
        ensures { Reads a_number self.old.bytes.now result self.new.bytes.now }
    {
        self.byte(b' ', Expected::Space)?;
        self.expected = expected;
        let Some((number, rest)) = read_decimal(self.bytes, 4294967295) else {
            return Err(stop_at(self.bytes));
        };
        self.bytes = rest;
        Ok(number as u32)
    }

    /// Reads a number below 2^64.
    pub fn place(&mut self, expected: Expected) -> Result<u64, PartFault>
        ensures { Reads a_place self.old.bytes.now result self.new.bytes.now }
    {
        self.byte(b' ', Expected::Space)?;
        self.expected = expected;
        let Some((number, rest)) = read_decimal(self.bytes, 18446744073709551615) else {
            return Err(stop_at(self.bytes));
        };
        self.bytes = rest;
        Ok(number)
    }

    /// Reads a mask of kinds.
    pub fn kinds(&mut self) -> Result<Kinds, PartFault>
        ensures { Reads a_kinds self.old.bytes.now result self.new.bytes.now }
    {
        self.byte(b' ', Expected::Space)?;
        self.expected = Expected::Kinds;
        let Some((number, rest)) = read_decimal(self.bytes, 15) else {
            return Err(stop_at(self.bytes));
        };
        let Some(kinds) = Kinds::of(number as u8) else {
            return Err(stop_at(self.bytes));
        };
        self.bytes = rest;
        Ok(kinds)
    }

    /// Reads `=`, a value of the kind, and the newline.
    #[inline(always)]
    pub fn value(&mut self, alloc: Global, kind: Kind) -> Result<Value, PartFault>
        ensures { ReadsOr (ValueTakesMemory kind self.old.bytes.now) (a_value kind) self.old.bytes.now result self.new.bytes.now }
    {
        self.byte(b' ', Expected::Space)?;
        self.byte(b'=', Expected::Equals)?;
        self.byte(b' ', Expected::Space)?;
        match last_value_at(alloc, kind, self.bytes, &mut self.expected) {
            Ok((value, rest)) => {
                self.bytes = rest;
                Ok(value)
            }
            Err(stop) => Err(stop),
        }
    }

    /// Reads the newline.
    pub fn end(&mut self) -> Result<(), PartFault>
        ensures { Reads an_end self.old.bytes.now result self.new.bytes.now }
    {
        self.byte(b'\n', Expected::End)
    }
}

// Returns true for `over`, false for `new`; `None` for another word.
fn mode_of(word: &[u8]) -> Option<bool>
    ensures found { IfSome result (λ overwrite. word.now ≡ mode_word overwrite) }
    ensures none { IfNone result ((overwrite : Bool) → word.now ≢ mode_word overwrite) }
{
    if word == b"over".as_slice() {
        Some(true)
    } else if word == b"new".as_slice() {
        Some(false)
    } else {
        None
    }
}

// Returns true for `first`, false for `later`; `None` for another word.
fn initial_of(word: &[u8]) -> Option<bool>
    ensures found { IfSome result (λ initial. word.now ≡ initial_word initial) }
    ensures none { IfNone result ((initial : Bool) → word.now ≢ initial_word initial) }
{
    if word == b"first".as_slice() {
        Some(true)
    } else if word == b"later".as_slice() {
        Some(false)
    } else {
        None
    }
}
