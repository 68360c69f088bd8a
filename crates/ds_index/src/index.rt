//! Labels by endpoint.

ghost use Rattle.std.specs.Prelude.{◌≡◌, ◌<◌, ◌≤◌, ◌+◌, [], ℕ, Some, true, false, Contains};
ghost use Rattle.std.specs.Prelude.{IfSome, OnOk, length, slice_get, vec_len, vec_capacity};
ghost use Rattle.std.specs.Option.{option_copied, option_map, option_map_or};
ghost use Rattle.std.specs.List.{find};
ghost use Rattle.std.specs.List.Sorted.{IsStrictlySortedBy};
ghost use Rattle.ds_index.specs.declared.named.Named.{Named};
ghost use Rattle.ds_index.specs.Named.{named_cmp, holds_endpoint, is_label_after, inserted_label};
ghost use Rattle.ds_index.specs.Named.{IsBegin, IsLabelPlace, IsNearLabel};
ghost use Rattle.ds_index.specs.Index.{IsAdded, IsMovedLabel, IsReplaced};

use crate::begins::Begins;
use crate::named::{Named, begins_after, is_after, is_of};
use ds_names::{Endpoint, Name, NoRoom};
use std::alloc::Global;
use std::marker::Model;
use std::ops::Range;

/// Labels in the order of their endpoints, then of their names, and for each slot a guess of where its labels begin.
/// Two comparisons at a guess mostly replace a search.
#[derive(Drop)]
pub(crate) struct Index {
    names: Vec<Named>,
    begins: Begins,
}

impl Model for Index {
    ghost use Rattle.std.specs.Prelude.{vec_capacity};
    ghost use Rattle.std.specs.List.Sorted.{IsStrictlySortedBy};
    ghost use Rattle.ds_index.specs.Named.{named_cmp};
    ghost use Rattle.ds_index.specs.Index.{Listing, listing};

    ghost Value = { Listing };

    ghost view = { λ a. listing a.names.items (vec_capacity a.names) };

    ghost invariant = { λ a. IsStrictlySortedBy named_cmp a.names.items };
}

// Returns the label at an index.
fn nth(names: &[Named], index: usize) -> Option<&Named>
    ensures { option_copied result ≡ slice_get names.now index }
{
    names.get(index)
}

// Whether the label at the index has the endpoint.
fn is_of_nth(names: &[Named], index: usize, endpoint: Endpoint) -> bool
    ensures { result ≡ option_map_or (holds_endpoint endpoint) (slice_get names.now index) false }
{
    match nth(names, index) {
        Some(named) => is_of(endpoint, named),
        None => false,
    }
}

// Returns the label at the index if it is the endpoint's first: it has the endpoint, and the one before it doesn't.
fn first_at<'a>(names: &'a [Named], index: usize, endpoint: Endpoint) -> Option<&'a Named>
    requires { IsStrictlySortedBy named_cmp names.now }
    ensures { IfSome (option_copied result) (λ (p : Named). find (holds_endpoint endpoint) names.now ≡ Some p) }
{
    let named = nth(names, index)?;
    if is_of(endpoint, named) && (index == 0 || !is_of_nth(names, index - 1, endpoint)) {
        Some(named)
    } else {
        None
    }
}

// Returns the index where the labels of the endpoint begin, or would begin.
fn begin_of(names: &[Named], endpoint: Endpoint) -> usize
    requires { IsStrictlySortedBy named_cmp names.now }
    ensures { IsBegin endpoint names.now result }
{
    names.partition_point(|named| begins_after(endpoint, named))
}

// Searches for the endpoint's first label.
#[inline(never)]
fn search<'a>(names: &'a [Named], endpoint: Endpoint) -> Option<&'a Named>
    requires { IsStrictlySortedBy named_cmp names.now }
    ensures { option_copied result ≡ find (holds_endpoint endpoint) names.now }
{
    match nth(names, begin_of(names, endpoint)) {
        Some(named) => {
            if is_of(endpoint, named) {
                Some(named)
            } else {
                None
            }
        }
        None => None,
    }
}

// Returns the endpoint's first label.
fn first_of<'a>(names: &'a [Named], guess: usize, endpoint: Endpoint) -> Option<&'a Named>
    requires { IsStrictlySortedBy named_cmp names.now }
    ensures { option_copied result ≡ find (holds_endpoint endpoint) names.now }
{
    match first_at(names, guess, endpoint) {
        Some(named) => Some(named),
        None => search(names, endpoint),
    }
}

// Whether the label comes after the one at the index.
fn is_after_nth(names: &[Named], index: usize, named: &Named) -> bool
    ensures { result ≡ option_map_or (is_label_after named.now) (slice_get names.now index) false }
{
    match nth(names, index) {
        Some(other) => is_after(named, other),
        None => false,
    }
}

// Whether the index is the label's place: it comes after the one before the index, and not after the one at the
// index.
fn is_place(names: &[Named], place: usize, named: &Named) -> bool
    requires { IsStrictlySortedBy named_cmp names.now }
    ensures { result ≡ true → (place ≤ length names.now) × IsLabelPlace named.now names.now place }
{
    if place > 0 && !is_after_nth(names, place - 1, named) {
        return false;
    }
    !is_after_nth(names, place, named)
}

// Returns how many labels come before this one.
fn place_of(names: &[Named], guess: usize, named: &Named) -> usize
    requires { IsStrictlySortedBy named_cmp names.now }
    ensures bound { result ≤ length names.now }
    ensures place { IsLabelPlace named.now names.now result }
{
    if is_place(names, guess, named) {
        return guess;
    }
    names.partition_point(|other| is_after(named, other))
}

// Inserts a label, for which there is capacity, and returns its index.
fn add(names: &mut Vec<Named>, guess: usize, named: Named) -> usize
    requires sorted { IsStrictlySortedBy named_cmp names.old.items }
    requires room { vec_len names.old < vec_capacity names.old }
    ensures listed { names.new.items ≡ inserted_label named names.old.items }
    ensures bound { result ≤ vec_len names.old }
{
    let place = place_of(names, guess, &named);
    let _ = names.insert(place, named);
    place
}

// Whether a label may replace the one at the index: it comes after the one before, and not after the next one.
fn stays(names: &[Named], index: usize, named: &Named) -> bool
    requires sorted { IsStrictlySortedBy named_cmp names.now }
    requires within { index < length names.now }
    ensures { result ≡ true → IsNearLabel named.now names.now index }
{
    if index > 0 && !is_after_nth(names, index - 1, named) {
        return false;
    }
    !is_after_nth(names, index + 1, named)
}

// Replaces one label with another, and puts it at its place. It allocates nothing, and returns the range of indices
// whose labels moved.
fn replace(names: &mut Vec<Named>, guess: usize, before: &Named, after: Named) -> Range<usize>
    requires sorted { IsStrictlySortedBy named_cmp names.old.items }
    requires listed { Contains names.old.items before.now }
    ensures { IsMovedLabel names.old.items names.new.items before.now after }
{
    let old = place_of(names, guess, before);
    if stays(names, old, &after) {
        names[old] = after;
        return old..old + 1;
    }
    names.remove(old);
    let new = add(names, guess, after);
    old.min(new)..old.max(new) + 1
}

impl Index {
    /// Returns an empty index. It allocates nothing.
    pub(crate) fn new(alloc: Global) -> Index
        ensures { result.names ≡ [] }
    {
        Index {
            names: Vec::new(alloc),
            begins: Begins::new(),
        }
    }

    /// Reserves memory for one more label.
    pub(crate) fn reserve(&mut self) -> Result<(), NoRoom>
        ensures names { self.new.names ≡ self.old.names }
        ensures room { OnOk result (length self.new.names < self.new.room) }
    {
        self.names.reserve(1)?;
        Ok(())
    }

    /// Inserts a label, for which memory is reserved.
    pub(crate) fn add(&mut self, named: Named)
        requires room { length self.old.names < self.old.room }
        requires new { Contains self.old.names named → ⊥ }
        ensures { IsAdded self.old.names self.new.names named }
    {
        let guess = self.begins.of(&named.endpoint);
        let place = add(&mut self.names, guess, named);
        self.begins.look(&self.names, place..self.names.len());
    }

    /// Replaces one label with another. It allocates nothing.
    pub(crate) fn replace(&mut self, before: &Named, after: Named)
        requires listed { Contains self.old.names before.now }
        requires lone { Contains self.old.names after → after ≡ before.now }
        ensures { IsReplaced self.old.names self.new.names before.now after }
    {
        let guess = self.begins.of(&before.endpoint);
        let moved = replace(&mut self.names, guess, before, after);
        self.begins.look(&self.names, moved);
    }

    /// Returns the least name of an endpoint.
    #[inline(always)]
    pub(crate) fn name_of(&self, endpoint: Endpoint) -> Option<&Name>
        ensures first { option_copied result ≡ option_map (λ (p : Named). p.name) (find (holds_endpoint endpoint) self.now.names) }
        ensures in_order { IsStrictlySortedBy named_cmp self.now.names }
    {
        let guess = self.begins.of(&Some(endpoint));
        let named = first_of(&self.names, guess, endpoint)?;
        Some(&named.name)
    }
}
