//! Masks of subscriptions.

ghost use Rattle.std.specs.Prelude.{◌≡◌, ◌<◌, false, true, replicate, slice_index_or, slice_set};
ghost use Rattle.ds_watch.specs.Mask.{mask, either};

use std::marker::Model;

/// A set of subscriptions. Bit k is subscription k.
#[derive(Clone, Copy)]
pub struct Mask {
    bits: u128,
}

impl Model for Mask {
    ghost use Rattle.std.specs.Prelude.{◌<◌, ◌^◌, Bool, List};
    ghost use Rattle.ds_watch.specs.Mask.{mask, flags};
    ghost use Rattle.ds_watch.specs.MaskBits.{mask_flags};

    ghost Value = { List Bool };

    ghost view = { λ m. flags m.bits };

    ghost invariant = { λ m. m.bits < 2 ^ 128 };

    ghost inverse = { λ fs. record { bits = mask fs } };

    ghost inverse_ok = { λ m small i. record { bits = mask_flags m.bits small i } };
}

impl Mask {
    /// Returns the empty set.
    pub fn none() -> Mask
        ensures { result ≡ replicate 128 false }
    {
        Mask { bits: 0 }
    }

    /// Returns whether the subscription with this number is in the set.
    pub(crate) fn has(self, sub: usize) -> bool
        requires { sub < 128 }
        ensures { result ≡ slice_index_or self sub false }
    {
        self.bits & (1 << sub) != 0
    }

    /// Returns the set with the subscription of this number if `is_in`, else without it.
    pub fn put(self, sub: usize, is_in: bool) -> Mask
        requires { sub < 128 }
        ensures value { result ≡ slice_set self sub is_in }
        ensures here { slice_index_or result sub false ≡ is_in }
    {
        if is_in {
            self.with(sub)
        } else {
            self.without(sub)
        }
    }

    // Returns the set with the subscription of this number.
    fn with(self, sub: usize) -> Mask
        requires { sub < 128 }
        ensures value { result ≡ slice_set self sub true }
        ensures here { slice_index_or result sub false ≡ true }
    {
        Mask {
            bits: self.bits | (1 << sub),
        }
    }

    // Returns the set without the subscription of this number.
    fn without(self, sub: usize) -> Mask
        requires { sub < 128 }
        ensures value { result ≡ slice_set self sub false }
        ensures here { slice_index_or result sub false ≡ false }
    {
        Mask {
            bits: self.bits & !(1 << sub),
        }
    }

    /// Adds the subscriptions of the other mask.
    pub fn add(&mut self, other: Mask)
        ensures { self.new ≡ either self.old other }
    {
        self.bits |= other.bits;
    }

    /// Returns the mask as a number, in which bit k is subscription k.
    pub fn number(self) -> u128
        ensures { result ≡ mask self }
    {
        let Mask { bits } = self;
        bits
    }
}
