//! Lists of passes.

ghost use Rattle.std.specs.Prelude.{◌≡◌, ◌++◌, ◌∷◌, [], length, IfSome, IfNone, OnOk, OnErr, IfErr};

use crate::pass::Pass;
use std::alloc::{AllocFailed, Global};
use std::marker::Model;

/// A list of passes, or of another type.
#[derive(Drop)]
pub struct PassesOf<P> {
    pub(crate) passes: Vec<P>,
}

impl<P> Model for PassesOf<P> {
    ghost use Rattle.std.specs.Prelude.{List};

    ghost Value = { List P };

    ghost view = { λ p. p.passes.items };
}

/// The passes of a desk.
pub type Passes<M> = PassesOf<Pass<M>>;

impl<P> PassesOf<P> {
    /// Returns an empty list. Takes no memory.
    pub fn new(alloc: Global) -> PassesOf<P>
        ensures { result ≡ [] }
    {
        PassesOf {
            passes: Vec::new(alloc),
        }
    }

    /// Returns the list of the passes in a `Vec`. Takes no memory.
    pub fn of(passes: Vec<P>) -> PassesOf<P>
        ensures { result ≡ passes.items }
    {
        PassesOf { passes }
    }

    /// Returns the passes as a `Vec`. Takes no memory.
    pub fn into_vec(self) -> Vec<P>
        ensures { result.items ≡ self }
    {
        self.passes
    }

    /// Appends a pass. If memory runs out, the error hands the pass back.
    pub fn push(&mut self, pass: P) -> Result<(), AllocFailed<P>>
        ensures added { OnOk result (self.new ≡ self.old ++ pass ∷ []) }
        ensures unchanged { OnErr result (self.new ≡ self.old) }
        ensures back { IfErr result (λ back. back.value ≡ pass) }
    {
        self.passes.push(pass)
    }

    /// Removes the last pass and returns it, or `None` if there is none.
    pub fn pop(&mut self) -> Option<P>
        ensures taken { IfSome result (λ pass. self.old ≡ self.new ++ pass ∷ []) }
        ensures none { IfNone result ((self.old ≡ []) × (self.new ≡ [])) }
    {
        self.passes.pop()
    }

    /// Returns the number of passes.
    pub fn len(&self) -> usize
        ensures { result ≡ length self.now }
    {
        self.passes.len()
    }
}
