//! Readers of the pieces of a world's lines.

#![tactic(auto, unfolding(crate::specs::Reads::ReadsOr))]

ghost use Rattle.std.specs.Prelude.{◌≡◌, ◌≢◌, ◌∷◌, ◌<◌, ◌^◌, ℕ, IfSome, IfNone};
ghost use Rattle.std.specs.Fmt.{decimal};
ghost use Rattle.ds_replica.specs.declared.event.Holder.{Holder};
ghost use Rattle.ds_replica.specs.declared.event.Side.{Side};
ghost use Rattle.script_answers.specs.Outcome.{side_word};
ghost use Rattle.script_commands.specs.Reads.{Reads};
ghost use Rattle.script_commands.specs.World.{holder_word, IsHolder};
ghost use Rattle.script_commands.specs.WorldPieces.{a_ring, a_side, a_holder, a_count};

use crate::pieces::Rest;
use ds_line::{Expected, PartFault, stop_at, word_at};
use ds_names::{read_byte, read_decimal};
use ds_replica::{Holder, Side};

impl Rest<'_> {
    /// Reads the number of items that a journal keeps.
    pub fn ring(&mut self) -> Result<u32, PartFault>
        ensures { Reads a_ring self.old.bytes.now result self.new.bytes.now }
    {
        self.byte(b' ', Expected::Space)?;
        self.expected = Expected::Ring;
        let Some((number, rest)) = read_decimal(self.bytes, 4096) else {
            return Err(stop_at(self.bytes));
        };
        if number == 0 {
            return Err(stop_at(self.bytes));
        }
        self.bytes = rest;
        Ok(number as u32)
    }

    /// Reads `a` or `b`.
    pub fn side(&mut self) -> Result<Side, PartFault>
        ensures { Reads a_side self.old.bytes.now result self.new.bytes.now }
    {
        self.byte(b' ', Expected::Space)?;
        self.expected = Expected::Side;
        let (word, rest) = word_at(self.bytes);
        let Some(side) = side_of(word) else {
            return Err(stop_at(self.bytes));
        };
        self.bytes = rest;
        Ok(side)
    }

    /// Reads a side, or `m` and a map's number.
    pub fn holder(&mut self) -> Result<Holder, PartFault>
        ensures { Reads a_holder self.old.bytes.now result self.new.bytes.now }
    {
        self.byte(b' ', Expected::Space)?;
        self.expected = Expected::Holder;
        let (word, rest) = word_at(self.bytes);
        let Some(holder) = holder_of(word) else {
            return Err(stop_at(self.bytes));
        };
        self.bytes = rest;
        Ok(holder)
    }

    /// Reads the number of items to deliver, below 2^32, or `*`. Returns `None` for `*`: all of them.
    pub fn count(&mut self) -> Result<Option<u32>, PartFault>
        ensures { Reads a_count self.old.bytes.now result self.new.bytes.now }
    {
        self.byte(b' ', Expected::Space)?;
        self.expected = Expected::Count;
        if let Some(rest) = read_byte(self.bytes, b'*') {
            self.bytes = rest;
            return Ok(None);
        }
        let Some((number, rest)) = read_decimal(self.bytes, 4294967295) else {
            return Err(stop_at(self.bytes));
        };
        self.bytes = rest;
        Ok(Some(number as u32))
    }
}

fn side_of(word: &[u8]) -> Option<Side>
    ensures found { IfSome result (λ side. word.now ≡ side_word side) }
    ensures none { IfNone result ((side : Side) → word.now ≢ side_word side) }
{
    if word == b"a".as_slice() {
        Some(Side::A)
    } else if word == b"b".as_slice() {
        Some(Side::B)
    } else {
        None
    }
}

// Returns the map that a word names, by `m` and its number.
fn map_of(word: &[u8]) -> Option<u64>
    ensures found { IfSome result (λ map. word.now ≡ 109 ∷ decimal map) }
    ensures none { IfNone result ((map : ℕ) → map < 2 ^ 64 → word.now ≢ 109 ∷ decimal map) }
{
    let digits = read_byte(word, b'm')?;
    let (map, rest) = read_decimal(digits, 18446744073709551615)?;
    if rest.is_empty() { Some(map) } else { None }
}

// Returns the holder that a word names: a side, or a map.
fn holder_of(word: &[u8]) -> Option<Holder>
    ensures found { IfSome result (λ holder. word.now ≡ holder_word holder) }
    ensures valid { IfSome result IsHolder }
    ensures none { IfNone result ((holder : Holder) → IsHolder holder → word.now ≢ holder_word holder) }
{
    if let Some(side) = side_of(word) {
        return Some(Holder::Store(side));
    }
    match map_of(word) {
        Some(map) => Some(Holder::Map(map as usize)),
        None => None,
    }
}
