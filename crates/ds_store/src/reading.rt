//! Judging a Since, a Snapshot, a Page and a Merge.

ghost use Rattle.std.specs.Prelude.{◌≡◌, None, Err, IfOk, IfErr, OnOk, IfNone, ◌≤◌};
ghost use Rattle.ds_feed.specs.declared.cursor.Cursor.{Cursor};
ghost use Rattle.ds_feed.specs.Feed.{Feed};
ghost use Rattle.ds_machine.specs.Order.{first_refusal};
ghost use Rattle.ds_machine.specs.Calling.{against_since, against_page, against_merge};
ghost use Rattle.ds_store.specs.Refused.{IsRefusedFor, refusal_of_cursor, refusal_of_journal, refusal_of_since};
ghost use Rattle.ds_store.specs.Scopes.{scope_of};
ghost use Rattle.ds_store.specs.Last.{ReadsPattern};
ghost use Rattle.ds_names.specs.Limits.{most_items};

use crate::check::is_no_max;
use crate::scope::ScopeFilter;
use ds_feed::SinceFault;
use ds_machine::{Refusal, Scope};
use ds_names::limits::MOST_ITEMS;
use std::alloc::Global;

/// Returns the refusal for a fault of a cursor.
pub fn refusal_of_journal(fault: SinceFault) -> Refusal
    ensures { result ≡ refusal_of_journal fault }
{
    match fault {
        SinceFault::OldCursor => Refusal::OldCursor,
        SinceFault::Ahead => Refusal::Ahead,
        SinceFault::Behind => Refusal::Behind,
        SinceFault::NoRoom => Refusal::NoRoom,
    }
}

/// Reads the scope of a Page. Refuses as TooMany unless `max` is 1 to 256; then as TooLong, BadPattern or NoRoom for
/// its pattern.
pub fn scope_of_page(alloc: Global, scope: &Scope, max: u32) -> Result<ScopeFilter, Refusal>
    ensures read { IfOk result (λ filter. scope_of filter ≡ scope.now) }
    ensures none { OnOk result (first_refusal (against_page scope.now max) ≡ None) }
    ensures refused { IfErr result (IsRefusedFor (first_refusal (against_page scope.now max))) }
    ensures last { result ≡ Err Refusal.NoRoom → ReadsPattern scope.now (against_page scope.now max) }
{
    if is_no_max(max) {
        return Err(Refusal::TooMany);
    }
    ScopeFilter::read(alloc, scope)
}

/// Reads the scope of a Since. Refuses like `scope_of_page`; the journal judges the cursor later.
pub fn scope_of_since(alloc: Global, scope: &Scope, max: u32) -> Result<ScopeFilter, Refusal>
    ensures read { IfOk result (λ filter. scope_of filter ≡ scope.now) }
    ensures none { OnOk result ((f : Feed) (at : Cursor) → refusal_of_since f scope.now at max ≡ refusal_of_cursor f at) }
    ensures refused { IfErr result (λ refusal. (f : Feed) (at : Cursor) → IsRefusedFor (refusal_of_since f scope.now at max) refusal) }
    ensures last { result ≡ Err Refusal.NoRoom → (f : Feed) (at : Cursor) → ReadsPattern scope.now (against_since f scope.now at max) }
{
    scope_of_page(alloc, scope, max)
}

/// Returns the refusal of a Merge of this many items: TooMany above 256, otherwise `None`.
pub fn refusal_of_merge(count: usize) -> Option<Refusal>
    ensures first { result ≡ first_refusal (against_merge count) }
    ensures few { IfNone result (count ≤ most_items) }
{
    if count > MOST_ITEMS {
        Some(Refusal::TooMany)
    } else {
        None
    }
}
