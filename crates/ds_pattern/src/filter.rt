//! Queries with a compiled pattern.

ghost use Rattle.std.specs.Prelude.{◌≡◌, Ok, false, IsFalse, IfOk, IfErr};
ghost use Rattle.ds_names.specs.Kind.{names_kind};
ghost use Rattle.ds_pattern.specs.Under.{is_under};
ghost use Rattle.ds_pattern.specs.Patterns.{IsPattern, IsPatternFault};

use crate::asker::Asker;
use crate::pattern::{Pattern, PatternFault};
use crate::query::Query;
use ds_names::{Key, Kind, Kinds, NoRoom};
use std::alloc::Global;
use std::marker::Model;

/// A query with its compiled pattern, which decides which keys are under it.
#[derive(Drop)]
pub struct Filter {
    pattern: Pattern,
    kinds: Kinds,
}

impl Model for Filter {
    ghost use Rattle.ds_pattern.specs.declared.query.Query.{Query};
    ghost use Rattle.ds_pattern.specs.Under.{query_of};

    ghost Value = { Query };

    ghost view = { λ f. query_of f.pattern f.kinds };
}

impl Filter {
    /// Compiles a query, or returns the fault of its pattern.
    pub fn read(alloc: Global, query: &Query) -> Result<Filter, PatternFault>
        ensures read { IfOk result (λ filter. filter ≡ query.now) }
        ensures pattern { IfOk result (λ filter. IsPattern filter.text) }
        ensures refused { IfErr result (λ fault. IsPatternFault fault query.now.text) }
    {
        Ok(Filter {
            pattern: Pattern::read(alloc, &query.text)?,
            kinds: query.kinds,
        })
    }

    /// Returns whether the query names the kind. If not, no key of the kind is under it, whatever the pattern.
    pub fn names(&self, kind: Kind) -> bool
        ensures { result ≡ names_kind self.now.kinds kind }
    {
        self.kinds.has(kind)
    }

    /// Returns a tester for many keys. Fails only if memory runs out for its buffers.
    pub fn asker(&self, alloc: Global) -> Result<Asker<'_>, NoRoom>
        ensures { IfOk result (λ asker. asker ≡ self.now) }
    {
        Asker::new(alloc, &self.pattern, self.kinds)
    }

    /// Returns whether a key is under the query: the query names the key's kind, and the pattern matches the key's name
    /// whole. Runs the pattern, which takes memory, only for a kind that the query names.
    pub fn admits(&self, alloc: Global, key: &Key) -> Result<bool, NoRoom>
        ensures under { IfOk result (λ yes. yes ≡ is_under self.now key.now) }
        ensures other_kind { IsFalse (names_kind self.now.kinds key.now.kind) → result ≡ Ok false }
    {
        if !self.names(key.kind) {
            return Ok(false);
        }
        self.pattern.matches(alloc, &key.name)
    }
}
