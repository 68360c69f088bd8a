//! Lines that are built in place.

ghost use Rattle.std.specs.Prelude.{◌≡◌, ◌+◌, ◌≤◌, ◌++◌, [], length};
ghost use Rattle.std.specs.Fmt.{decimal};

use crate::block::put;
use itoa::Buffer;
use std::marker::Model;

/// The front of a line, built in place so that the caller's buffer grows only once. It has 256 bytes, enough for each
/// line without its text or blob.
#[derive(Drop)]
pub struct Line {
    block: [u8; 256],
    len: usize,
}

impl Model for Line {
    ghost use Rattle.std.specs.Prelude.{ℕ, List, ◌≤◌, take};

    ghost Value = { List ℕ };

    ghost view = { λ l. take l.len l.block };

    ghost invariant = { λ l. l.len ≤ 256 };
}

impl Line {
    /// Returns an empty line.
    #[inline(always)]
    pub fn new() -> Line
        ensures { result ≡ [] }
    {
        let block = [0; 256];
        Line { block, len: 0 }
    }

    /// Appends a text.
    #[inline(always)]
    pub fn put(&mut self, text: &[u8])
        requires { length self.old + length text.now ≤ 256 }
        ensures written { self.new ≡ self.old ++ text.now }
        ensures len { length self.new ≡ length self.old + length text.now }
    {
        put(&mut self.block, self.len, text);
        self.len += text.len();
    }

    /// Appends a number in decimal. Is fast for one digit or two, which most numbers of versions have.
    #[tactic(auto, using(std::proofs::lemmas::Fmt::decimal_digit, crate::proofs::DecimalLemmas::two_digits))]
    #[inline(always)]
    pub fn put_number(&mut self, number: u32)
        requires { length self.old + 10 ≤ 256 }
        ensures written { self.new ≡ self.old ++ decimal number }
        ensures fits { length self.new ≤ length self.old + 10 }
    {
        if number < 10 {
            return self.put(&[b'0' + number as u8]);
        }
        if number < 100 {
            return self.put(&[b'0' + (number / 10) as u8, b'0' + (number % 10) as u8]);
        }
        let mut digits = Buffer::new();
        self.put(digits.format(number).as_bytes());
    }

    /// Returns the bytes of the line so far.
    #[inline(always)]
    pub fn bytes(&self) -> &[u8]
        ensures { result.now ≡ self.now }
    {
        &self.block[..self.len]
    }
}
