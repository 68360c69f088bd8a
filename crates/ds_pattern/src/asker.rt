//! Tests of many keys against one query.

ghost use Rattle.std.specs.Prelude.{◌≡◌, IfOk};
ghost use Rattle.ds_pattern.specs.Under.{is_under, query_of};

use crate::pattern::{Pattern, finds};
use ds_names::{Key, Kinds, NoRoom};
use regex_nfa::Nfa;
use regex_vm::PikeVm;
use std::alloc::Global;
use std::marker::Model;

/// A query with buffers for tests of many keys. The buffers are allocated once, so a test takes no memory.
#[derive(Drop)]
pub struct Asker<'f> {
    pattern: &'f Pattern,
    whole: &'f Nfa,
    kinds: Kinds,
    machine: PikeVm,
}

impl<'f> Model for Asker<'f> {
    ghost use Rattle.std.specs.Prelude.{◌≡◌, vec_len};
    ghost use Rattle.ds_pattern.specs.declared.query.Query.{Query};
    ghost use Rattle.ds_pattern.specs.Under.{query_of, FindsWhole};

    ghost Value = { Query };

    ghost view = { λ a. query_of a.pattern.now a.kinds };

    ghost invariant = { λ a. FindsWhole a.whole.now a.pattern.now × (a.machine.states ≡ vec_len a.whole.now.states) };
}

impl<'f> Asker<'f> {
    // Builds the tester of a pattern and kinds.
    pub(crate) fn new(
        alloc: Global,
        pattern: &'f Pattern,
        kinds: Kinds,
    ) -> Result<Asker<'f>, NoRoom>
        ensures { IfOk result (λ asker. asker ≡ query_of pattern.now kinds) }
    {
        let whole = pattern.whole();
        Ok(Asker {
            pattern,
            whole,
            kinds,
            machine: PikeVm::new(alloc, whole)?,
        })
    }

    /// Returns whether a key is under the query: the query names the key's kind, and the pattern matches the key's name
    /// whole. Runs the pattern only for a kind that the query names.
    pub fn admits(&mut self, key: &Key) -> bool
        ensures under { result ≡ is_under self.old key.now }
        ensures same { self.new ≡ self.old }
    {
        let name = key.name.bytes();
        self.kinds.has(key.kind)
            && (self.pattern.is_dot_star() || finds(self.whole, &mut self.machine, name))
    }
}
