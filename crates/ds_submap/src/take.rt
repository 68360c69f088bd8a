//! Taking items in order: a floor is raised; a change is merged if it is under the query, else skipped.

ghost use Rattle.std.specs.Prelude.{◌≡◌, is_some, IfErr, IfOk, IfSome, IsTrue, OnErr};
ghost use Rattle.std.specs.List.{list_any};
ghost use Rattle.ds_held.specs.Held.{IsSound};
ghost use Rattle.ds_pattern.specs.declared.query.Query.{Query};
ghost use Rattle.ds_submap.specs.Take.{AreCounted, IsTesterFor, IsFloorOrOther, IsItemTaken, IsTakeStopped, needs_query};
ghost use Rattle.ds_submap.specs.Take.{IsRefusedUnder};

use ds_entry::Item;
use ds_held::Held;
use ds_join::{Count, JoinFault, Merge, Stop};
use ds_packed::Unpacking;
use ds_pattern::{Asker, Filter};
use std::alloc::Global;

// Takes items. The tester of names is built before the first of them if any needs it.
pub(crate) fn take_items(
    alloc: Global,
    filter: &Filter,
    held: &mut Held,
    items: &[Item],
) -> Result<Count, Stop>
    requires { IsSound held.old }
    ensures sound { IsSound held.new }
    ensures counted { IfOk result (AreCounted filter.now held.old items.now held.new) }
    ensures stopped { IfErr result (IsTakeStopped filter.now held.old items.now held.new) }
{
    let mut asker = asker_if(alloc, filter, is_any_asked(filter, items))?;
    let mut count = Count::none();
    for item in items {
        match take_next(alloc, &mut asker, held, item) {
            Ok(answer) => count.add(answer),
            Err(fault) => return Err(count.stop(fault)),
        }
    }
    Ok(count)
}

// Takes packed items likewise.
pub(crate) fn take_packed(
    alloc: Global,
    filter: &Filter,
    held: &mut Held,
    mut items: Unpacking<'_>,
) -> Result<Count, Stop>
    requires { IsSound held.old }
    ensures sound { IsSound held.new }
    ensures counted { IfOk result (AreCounted filter.now held.old items.entry held.new) }
    ensures stopped { IfErr result (IsTakeStopped filter.now held.old items.entry held.new) }
{
    let mut asker = asker_if(alloc, filter, is_any_packed_asked(filter, &items))?;
    let mut count = Count::none();
    let _most = items.len();
    while let Some(item) = items.next() {
        let answer = take_next(alloc, &mut asker, held, &item);
        drop(item);
        match answer {
            Ok(answer) => count.add(answer),
            Err(fault) => return Err(count.stop(fault)),
        }
    }
    Ok(count)
}

// Builds the tester of the query if it is needed.
fn asker_if(alloc: Global, filter: &Filter, needed: bool) -> Result<Option<Asker<'_>>, Stop>
    ensures asker { IfOk result (λ asker. is_some asker ≡ needed) }
    ensures query { IfOk result (λ asker. IfSome asker (λ a. a ≡ filter.now)) }
    ensures refused { IfErr result (λ stop. (stop.done ≡ 0) × (stop.fault ≡ JoinFault.NoRoom) × IsTrue needed) }
{
    if !needed {
        return Ok(None);
    }
    match filter.asker(alloc) {
        Ok(asker) => Ok(Some(asker)),
        Err(_) => Err(Count::none().stop(JoinFault::NoRoom)),
    }
}

// Returns whether an item needs the query's pattern: a change of a kind that the query names. A floor is under every query.
fn is_asked(filter: &Filter, item: &Item) -> bool
    ensures { result ≡ needs_query filter.now item.now }
{
    match item {
        Item::Change(change) => filter.names(change.key().kind),
        Item::Floor(_) => false,
    }
}

// Returns whether any of the items does.
fn is_any_asked(filter: &Filter, items: &[Item]) -> bool
    ensures { result ≡ list_any (needs_query filter.now) items.now }
{
    items.iter().any(|item| is_asked(filter, item))
}

// Returns whether any of the packed items does.
fn is_any_packed_asked(filter: &Filter, items: &Unpacking<'_>) -> bool
    ensures { result ≡ list_any (needs_query filter.now) items.now }
{
    let Some(mut rest) = items.first(items.len()) else {
        unreachable!()
    };
    while let Some(item) = rest.next() {
        if is_asked(filter, &item) {
            return true;
        }
    }
    false
}

// Takes the next item. Without a tester, it is a floor or isn't under the query.
fn take_next(
    alloc: Global,
    asker: &mut Option<Asker<'_>>,
    held: &mut Held,
    item: &Item,
) -> Result<Option<Merge>, JoinFault>
    requires { IsSound held.old }
    ensures asker { asker.new ≡ asker.old }
    ensures sound { IsSound held.new }
    ensures taken { IfOk result (λ answer. (q : Query) → IsTesterFor q asker.old item.now
        → IsItemTaken q held.old item.now answer held.new) }
    ensures refused { IfErr result (λ fault. (q : Query) → IsTesterFor q asker.old item.now → IsRefusedUnder q held.old item.now fault) }
    ensures unchanged { OnErr result (held.new ≡ held.old) }
{
    match asker {
        Some(asker) => take_one(alloc, asker, held, item),
        None => raise_or_pass(held, item),
    }
}

// Raises a floor, and skips a change, which isn't under the query.
fn raise_or_pass(held: &mut Held, item: &Item) -> Result<Option<Merge>, JoinFault>
    requires { IsSound held.old }
    ensures sound { IsSound held.new }
    ensures taken { IfOk result (λ answer. (q : Query) → IsFloorOrOther q item.now → IsItemTaken q held.old item.now answer held.new) }
    ensures refused { IfErr result (λ fault. (q : Query) → IsRefusedUnder q held.old item.now fault) }
    ensures unchanged { OnErr result (held.new ≡ held.old) }
{
    match item {
        Item::Floor(floor) => Ok(Some(held.raise(*floor)?)),
        Item::Change(_) => Ok(None),
    }
}

// Merges a change if it is under the query, and raises a floor.
fn take_one(
    alloc: Global,
    asker: &mut Asker<'_>,
    held: &mut Held,
    item: &Item,
) -> Result<Option<Merge>, JoinFault>
    requires { IsSound held.old }
    ensures query { asker.new ≡ asker.old }
    ensures sound { IsSound held.new }
    ensures taken { IfOk result (λ answer. IsItemTaken asker.old held.old item.now answer held.new) }
    ensures refused { IfErr result (λ fault. IsRefusedUnder asker.old held.old item.now fault) }
    ensures unchanged { OnErr result (held.new ≡ held.old) }
{
    match item {
        Item::Change(change) if asker.admits(change.key()) => {
            Ok(Some(held.merge_copy(alloc, change)?))
        }
        Item::Change(_) | Item::Floor(_) => raise_or_pass(held, item),
    }
}
