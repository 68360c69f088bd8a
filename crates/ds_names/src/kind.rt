//! Kinds of entries, and sets of kinds.

ghost use Rattle.std.specs.Prelude.{◌≡◌, ℕ, ◌<◌, ◌≤◌, ◌↔◌, IsTrue, length};
ghost use Rattle.std.specs.Bool.{◌==◌};
ghost use Rattle.std.proofs.Common.{rules};
ghost use Rattle.std.proofs.lemmas.Cmp.{nat_cmp_total, nat_eq_equiv, on_total, on_equiv};
ghost use Rattle.std.specs.Cmp.{partial_order_from_own_ties, partial_equiv_from_equiv};
ghost use Rattle.std.specs.Cmp.Rules.{comparing};
ghost use Rattle.std.specs.Ordering.{nat_cmp, on, as_partial_cmp};
ghost use Rattle.ds_names.specs.Kind.{is_label, names_kind, kind_place};
ghost use Rattle.std.specs.Option.{SomeIff};
ghost use Rattle.ds_names.specs.declared.kind.Kind.{Kind};

use std::cmp::Ordering;
use std::marker::Model;

/// The type of an entry's value. Kinds are in the order of their variants.
///
/// MINIX 3's DS has labels, unsigned 32-bit numbers, strings and memory among its types.
#[derive(Clone, Copy, Debug)]
pub enum Kind {
    Label,
    U32,
    Str,
    Mem,
}

impl Kind {
    /// Returns whether the kind is Label.
    pub fn is_label(self) -> bool
        ensures value { result ≡ is_label self }
        ensures label { IsTrue result ↔ (self ≡ Kind.Label) }
    {
        match self {
            Kind::Label => true,
            Kind::U32 | Kind::Str | Kind::Mem => false,
        }
    }

    // Returns the kind's index in the order of kinds.
    fn place(self) -> u8
        ensures { result ≡ kind_place self }
    {
        match self {
            Kind::Label => 0,
            Kind::U32 => 1,
            Kind::Str => 2,
            Kind::Mem => 3,
        }
    }
}

impl PartialEq for Kind {
    ghost eq = { on kind_place ◌==◌ };

    ghost laws = { partial_equiv_from_equiv (on_equiv kind_place nat_eq_equiv) };

    fn eq(&self, other: &Kind) -> bool {
        self.place() == other.place()
    }
}

impl Eq for Kind {
    ghost laws = { on_equiv kind_place nat_eq_equiv };
}

impl Ord for Kind {
    ghost cmp = { on kind_place nat_cmp };

    ghost total = { on_total kind_place nat_cmp_total };

    ghost matches_partial_cmp = { Prim.search (comparing, rules) };

    ghost matches_eq = { Prim.search (comparing, rules) };

    fn cmp(&self, other: &Kind) -> Ordering {
        self.place().cmp(&other.place())
    }
}

impl PartialOrd for Kind {
    ghost partial_cmp = { as_partial_cmp (on kind_place nat_cmp) };

    ghost laws = { partial_order_from_own_ties (Prim.search (comparing, rules)) (Prim.search (comparing, rules)) };

    fn partial_cmp(&self, other: &Kind) -> Option<Ordering> {
        Some(self.cmp(other))
    }
}

/// A set of at least one kind, as a mask: the sum of 1, 2, 4 and 8 for label, u32, str and mem. Sets are this project's.
#[derive(Clone, Copy, Debug, PartialEq, Eq)]
pub struct Kinds {
    mask: u8,
}

impl Model for Kinds {
    ghost use Rattle.std.specs.Prelude.{ℕ, ◌<◌, ◌≤◌};

    ghost Value = { ℕ };

    ghost view = { λ k. k.mask };

    ghost invariant = { λ k. (0 < k.mask) × (k.mask ≤ 15) };

    ghost inverse = { λ n. record { mask = n } };
}

impl Kinds {
    /// Returns the set with a mask, or `None` if the mask is 0 or above 15.
    pub fn of(mask: u8) -> Option<Kinds>
        ensures { SomeIff result ((0 < mask) × (mask ≤ 15)) mask }
    {
        if mask == 0 || mask > 15 {
            None
        } else {
            Some(Kinds { mask })
        }
    }

    /// Returns whether the kind is in the set.
    pub fn has(self, kind: Kind) -> bool
        ensures { result ≡ names_kind self kind }
    {
        match kind {
            Kind::Label => self.mask % 2 == 1,
            Kind::U32 => self.mask / 2 % 2 == 1,
            Kind::Str => self.mask / 4 % 2 == 1,
            Kind::Mem => self.mask / 8 % 2 == 1,
        }
    }
}
