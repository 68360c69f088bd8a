//! Versions of changes.

ghost use Rattle.std.specs.Prelude.{◌≡◌};
ghost use Rattle.std.specs.Cmp.{IsTotalOrder};
ghost use Rattle.std.specs.declared.cmp.Ordering.TheVariants.{Equal};
ghost use Rattle.ds_names.specs.Version.{version_cmp};

use crate::endpoint::Generation;
use std::cmp::Ordering;

/// The version of a change. Of two changes of one key, the one with the greater version wins.
///
/// Versions are ordered by epoch, which is the generation of the process that made the change. Within an epoch the
/// sequence number decides, 0 to 4294967295. Versions are this project's.
#[derive(Clone, Copy, Debug, PartialEq, Eq, PartialOrd, Ord)]
pub struct Version {
    pub epoch: Generation,
    pub seq: u32,
}

impl Version {
    /// Compares two versions: first the epochs, then the sequence numbers.
    pub fn compare(&self, other: &Version) -> Ordering
        ensures { result ≡ version_cmp self.now other.now }
    {
        self.cmp(other)
    }
}

/// A law: the order of versions is total, and two versions that compare as equal are equal.
pub fn versions_are_ordered()
    ensures total { IsTotalOrder version_cmp }
    ensures exact { (v w : Version) → version_cmp v w ≡ Equal → v ≡ w }
{}
