//! The names published so far, in ascending order. A lookup is a binary search.

ghost use Rattle.std.specs.Prelude.{◌≡◌, ℕ, List, ◌≤◌, ◌<◌, ◌+◌, [], ◌∷◌, ◌||◌, not, length};
ghost use Rattle.rs_settings.specs.Values.{is_same};
ghost use Rattle.rs_settings.specs.Shared.{has_name};

use arrayvec::ArrayVec;
use std::marker::Model;

/// The most names that 64 services can publish, 64 each.
pub(crate) const MOST: usize = 4096;

/// Distinct names in ascending order. They are kept in place, so no call takes memory.
#[derive(Drop)]
pub(crate) struct Seen<'a> {
    names: ArrayVec<&'a str, 4096>,
}

impl<'a> Model for Seen<'a> {
    ghost use Rattle.std.specs.Prelude.{ℕ, List, map};
    ghost use Rattle.rs_settings.specs.Ascending.{AreAscending};

    ghost Value = { List (List ℕ) };

    ghost view = { λ s. map (λ n. n.now) s.names.items };

    ghost invariant = { λ s. AreAscending (λ n. n.now) s.names.items };
}

impl<'a> Seen<'a> {
    /// Returns an empty set.
    pub fn new() -> Seen<'a>
        ensures { result ≡ [] }
    {
        Seen {
            names: ArrayVec::new(),
        }
    }

    /// Adds a name, and returns whether it is new.
    pub fn add(&mut self, name: &'a str) -> bool
        requires { length self.old < MOST }
        ensures added { result ≡ not (has_name self.old name.now) }
        ensures after { (n : List ℕ) → has_name self.new n ≡ (has_name self.old n || is_same n name.now) }
        ensures len { length self.new ≤ length self.old + 1 }
    {
        match self.names.as_slice().binary_search(&name) {
            Ok(_) => false,
            Err(place) => {
                self.names.insert(place, name);
                true
            }
        }
    }
}
