//! Scopes whose patterns were read.

ghost use Rattle.std.specs.Prelude.{◌≡◌, None, Err, IfOk, IfErr, OnOk, IsOk};
ghost use Rattle.std.specs.List.{find};
ghost use Rattle.ds_machine.specs.Order.{first_refusal};
ghost use Rattle.ds_machine.specs.Calling.{against_scope};
ghost use Rattle.ds_store.specs.Refused.{IsRefusedFor};
ghost use Rattle.ds_store.specs.Scopes.{scope_of, asker_scope};
ghost use Rattle.ds_store.specs.Last.{ReadsPattern};

use crate::subscribe::refusal_of_pattern;
use ds_feed::KeyScope;
use ds_machine::{Refusal, Scope};
use ds_names::{Key, NoRoom};
use ds_pattern::{Asker, Filter};
use std::alloc::Global;

/// A scope whose pattern, if it has one, was read.
#[derive(Drop)]
pub enum ScopeFilter {
    /// All keys.
    All,
    /// The keys under a query.
    Under(Filter),
}

/// A matcher of many keys against a scope.
#[derive(Drop)]
pub enum ScopeAsker<'f> {
    /// All keys.
    All,
    /// The keys under a query.
    Under(Asker<'f>),
}

impl ScopeFilter {
    /// Reads the pattern of a scope. Refuses as TooLong, then as BadPattern, or as NoRoom if memory runs out while
    /// reading. The scope of all keys is never refused.
    pub fn read(alloc: Global, scope: &Scope) -> Result<ScopeFilter, Refusal>
        ensures read { IfOk result (λ filter. scope_of filter ≡ scope.now) }
        ensures none { OnOk result (first_refusal (against_scope scope.now) ≡ None) }
        ensures refused { IfErr result (IsRefusedFor (first_refusal (against_scope scope.now))) }
        ensures last { result ≡ Err Refusal.NoRoom → ReadsPattern scope.now (against_scope scope.now) }
    {
        match scope {
            Scope::All => Ok(ScopeFilter::All),
            Scope::Under(query) => match Filter::read(alloc, query) {
                Ok(filter) => Ok(ScopeFilter::Under(filter)),
                Err(fault) => Err(refusal_of_pattern(fault)),
            },
        }
    }

    /// Returns a matcher for many keys. Fails only if memory runs out; the scope of all keys takes none.
    pub fn asker(&self, alloc: Global) -> Result<ScopeAsker<'_>, NoRoom>
        ensures asks { IfOk result (λ asker. asker_scope asker ≡ scope_of self.now) }
        ensures all { scope_of self.now ≡ Scope.All → IsOk result }
    {
        match self {
            ScopeFilter::All => Ok(ScopeAsker::All),
            ScopeFilter::Under(filter) => Ok(ScopeAsker::Under(filter.asker(alloc)?)),
        }
    }
}

impl<'f> KeyScope for ScopeAsker<'f> {
    ghost use Rattle.ds_machine.specs.Scope.{keeps as scope_keeps};
    ghost use Rattle.ds_store.specs.Scopes.{asker_scope};

    ghost keeps = { λ a. scope_keeps (asker_scope a) };

    fn admits(&mut self, key: &Key) -> bool {
        match self {
            ScopeAsker::All => true,
            ScopeAsker::Under(asker) => asker.admits(key),
        }
    }
}
