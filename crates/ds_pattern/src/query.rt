//! Queries of subscribers, with a pattern that isn't compiled yet.

ghost use Rattle.std.specs.Prelude.{◌≡◌, ◌≢◌, ℕ, [], IfOk, OnErr};
ghost use Rattle.std.specs.Bool.{◌==◌};
ghost use Rattle.std.proofs.lemmas.Cmp.{nat_list_eq_equiv};
ghost use Rattle.std.specs.Cmp.{partial_equiv_from_equiv};
ghost use Rattle.std.specs.Cmp.Lexicographic.{pointwise};

use ds_names::{Kinds, NoRoom};
use std::alloc::Global;
use std::marker::Model;

/// The text of a pattern, unchecked: any bytes, of any length.
#[derive(Drop)]
pub struct PatternText {
    bytes: Vec<u8>,
}

impl Model for PatternText {
    ghost use Rattle.std.specs.Prelude.{ℕ, List};

    ghost Value = { List ℕ };

    ghost view = { λ t. t.bytes.items };
}

impl PatternText {
    /// Copies the bytes. Fails only if memory runs out; the copy of none takes none.
    pub fn of(alloc: Global, bytes: &[u8]) -> Result<PatternText, NoRoom>
        ensures same { IfOk result (λ text. text ≡ bytes.now) }
        ensures room { OnErr result (bytes.now ≢ []) }
    {
        if bytes.is_empty() {
            return Ok(PatternText {
                bytes: Vec::new(alloc),
            });
        }
        Ok(PatternText {
            bytes: bytes.to_vec(alloc)?,
        })
    }

    /// Returns the bytes of the text.
    pub fn bytes(&self) -> &[u8]
        ensures { result.now ≡ self.now }
    {
        &self.bytes
    }

    /// Copies the text. Fails only if memory runs out; the copy of an empty text takes none.
    pub fn copy(&self, alloc: Global) -> Result<PatternText, NoRoom>
        ensures same { IfOk result (λ text. text ≡ self.now) }
        ensures room { OnErr result (self.now ≢ []) }
    {
        PatternText::of(alloc, &self.bytes)
    }
}

impl PartialEq for PatternText {
    ghost eq = { pointwise ◌==◌ };

    ghost laws = { partial_equiv_from_equiv nat_list_eq_equiv };

    fn eq(&self, other: &PatternText) -> bool {
        self.bytes() == other.bytes()
    }
}

impl Eq for PatternText {
    ghost laws = { nat_list_eq_equiv };
}

/// A subscriber's query: some kinds, and a pattern that matches the names of entries whole.
///
/// Whether the text is a pattern is checked only when the query is compiled.
#[derive(PartialEq, Eq, Drop)]
pub struct Query {
    pub text: PatternText,
    pub kinds: Kinds,
}

impl Query {
    /// Copies the query. Fails only if memory runs out; the copy of an empty text takes none.
    pub fn copy(&self, alloc: Global) -> Result<Query, NoRoom>
        ensures same { IfOk result (λ query. query ≡ self.now) }
        ensures room { OnErr result (self.now.text ≢ []) }
    {
        Ok(Query {
            text: self.text.copy(alloc)?,
            kinds: self.kinds,
        })
    }
}
