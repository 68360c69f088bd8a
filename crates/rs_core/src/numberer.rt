//! Numbers for a process's changes.

ghost use Rattle.std.specs.Prelude.{◌≡◌, ◌≤◌, ◌<◌, ◌+◌, nat_lt, IfOk, OnErr};
ghost use Rattle.rs_core.specs.Numbering.{numberer, Gives};

use ds_names::{Generation, Version};
use std::marker::Model;
use thiserror::Error;

/// The generation has no sequence number left.
#[derive(Clone, Copy, Debug, PartialEq, Eq, Error)]
#[error("all sequence numbers are spent")]
pub struct SeqSpent;

/// Numbers the changes of one generation, using each number once. Not part of MINIX 3.
#[derive(Drop)]
pub struct Numberer {
    generation: Generation,
    seq: u32,
}

impl Model for Numberer {
    ghost use Rattle.std.specs.Prelude.{ℕ};
    ghost use Rattle.std.specs.Coded.{code_by, coded×, coded_ℕ};
    ghost use Rattle.rs_core.specs.Numbering.{NumbererRecord, numberer};

    ghost Value = { NumbererRecord };

    ghost coded = { code_by (ℕ × ℕ) (coded× coded_ℕ coded_ℕ) (λ n. (n.generation, n.next)) (λ p. numberer p.0 p.1) (λ n i. n) };

    ghost view = { λ n. numberer n.generation n.seq };
}

impl Numberer {
    /// Returns the numberer of a generation that begins at `seq`.
    pub fn of(generation: Generation, seq: u32) -> Numberer
        ensures { result ≡ numberer generation seq }
    {
        Numberer { generation, seq }
    }

    /// Returns a copy, for a caller that judges before it takes a number: use only one of the two.
    pub fn copy(&self) -> Numberer
        ensures { result ≡ self.now }
    {
        Numberer::of(self.generation, self.seq)
    }

    /// Returns the generation of its versions.
    pub fn generation(&self) -> Generation
        ensures { result ≡ self.now.generation }
    {
        self.generation
    }

    /// Returns whether no number is left, so that `next` would fail.
    pub fn is_spent(&self) -> bool
        ensures { result ≡ nat_lt 4294967294 self.now.next }
    {
        self.seq > 4294967294
    }

    /// Returns the next version. Fails with SeqSpent after number 4294967294, since no put has the greatest number.
    /// Takes no memory.
    pub fn next(&mut self) -> Result<Version, SeqSpent>
        ensures given { IfOk result (Gives self.old self.new) }
        ensures spent { OnErr result (4294967294 < self.old.next) }
        ensures unchanged { OnErr result (self.new ≡ self.old) }
    {
        if self.seq > 4294967294 {
            return Err(SeqSpent);
        }
        let version = Version {
            epoch: self.generation,
            seq: self.seq,
        };
        self.seq += 1;
        Ok(version)
    }
}
