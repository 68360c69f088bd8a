//! Keys of entries.

ghost use Rattle.std.specs.Prelude.{◌≡◌};
ghost use Rattle.std.specs.Cmp.{IsTotalOrder};
ghost use Rattle.std.specs.declared.cmp.Ordering.TheVariants.{Equal};
ghost use Rattle.ds_names.specs.Key.{key_cmp};

use crate::kind::Kind;
use crate::name::Name;
use std::cmp::Ordering;

/// The key of an entry: its name and its kind.
///
/// MINIX 3's DS finds an entry by name and type. The order, by the bytes of the name and then by kind, is this
/// project's.
#[derive(Clone, Copy, Debug, PartialEq, Eq, PartialOrd, Ord)]
pub struct Key {
    pub name: Name,
    pub kind: Kind,
}

impl Key {
    /// Compares two keys: first the bytes of the names, then the kinds.
    pub fn compare(&self, other: &Key) -> Ordering
        ensures { result ≡ key_cmp self.now other.now }
    {
        self.cmp(other)
    }
}

/// A law: the order of keys is total, and two keys that compare as equal are equal.
pub fn keys_are_ordered()
    ensures total { IsTotalOrder key_cmp }
    ensures exact { (a b : Key) → key_cmp a b ≡ Equal → a ≡ b }
{}
