//! Laws of patterns, over definitions alone.

ghost use Rattle.std.specs.Prelude.{◌≡◌, true, codes};
ghost use Rattle.ds_pattern.specs.Patterns.{is_pattern};

/// A law: `.*` is a pattern, so there is a query for all names.
#[tactic(auto, using(crate::proofs::StarLemmas::dot_star_accepted))]
pub fn dot_star_is_a_pattern()
    ensures { is_pattern (codes ".*") ≡ true }
{}
