//! A flag that makes jobs end early.

ghost use Rattle.std.specs.Prelude.{◌≡◌, true, IfSome};

use std::sync::atomic::{AtomicBool, Ordering};

/// The word of a flag that a run was given up. Only `GivenUp::told` makes one.
#[derive(Clone, Copy, Debug, PartialEq, Eq)]
pub struct Told {
    word: bool,
}

/// A flag that says whether a run was given up. Threads share it.
#[derive(Drop)]
pub struct GivenUp {
    told: AtomicBool,
}

impl GivenUp {
    /// Returns the flag of a run that isn't given up.
    pub fn new() -> GivenUp {
        GivenUp {
            told: AtomicBool::new(false),
        }
    }

    /// Gives the run up. All jobs should end.
    pub(crate) fn tell(&self) {
        self.told.store(true, Ordering::SeqCst);
    }

    /// Returns the word that the run was given up, or `None` if it wasn't. A job calls it before each of its turns.
    pub fn told(&self) -> Option<Told>
        ensures { IfSome result (λ t. t.word ≡ true) }
    {
        let word = self.told.load(Ordering::SeqCst);
        if word { Some(Told { word }) } else { None }
    }
}
