//! Floors.

ghost use Rattle.std.specs.Prelude.{◌≡◌};
ghost use Rattle.std.specs.Ordering.{eq_by_cmp};
ghost use Rattle.ds_names.specs.Key.{name_cmp};
ghost use Rattle.ds_entry.specs.Floor.{IsFloor};
ghost use Rattle.ds_entry.specs.Void.{voids};

use crate::change::Change;
use ds_names::{Generation, Name};
use std::cmp::Ordering;

/// A floor of an owner: it voids what the owner published in generations up to this one, except labels.
///
/// In MINIX 3 the entries of a dead driver stay in the data store. A floor ends them, even those that arrive late.
/// Floors are this project's.
#[derive(Clone, Copy, Debug, PartialEq, Eq)]
pub struct Floor {
    /// The owner of the entries.
    pub owner: Name,
    /// The greatest generation that is void.
    pub generation: Generation,
}

impl Floor {
    /// Returns whether the floor voids a change: one of its owner, not a label, with an epoch up to its generation.
    pub fn voids(&self, change: &Change) -> bool
        ensures { result ≡ voids self.now change.now }
    {
        let epoch = change.version().epoch.number();
        let generation = self.generation.number();
        !change.key().kind.is_label()
            && is_same_name(change.owner(), &self.owner)
            && epoch <= generation
    }

    // Copies the floor, and states that its parts are in range.
    pub(crate) fn in_range(&self) -> Floor
        ensures same { result ≡ self.now }
        ensures floor { IsFloor self.now }
    {
        let _owner = self.owner.bytes();
        let _generation = self.generation.number();
        *self
    }
}

// Returns whether two names are equal.
pub(crate) fn is_same_name(name: &Name, other: &Name) -> bool
    ensures { result ≡ eq_by_cmp name_cmp name.now other.now }
{
    matches!(name.cmp(other), Ordering::Equal)
}
