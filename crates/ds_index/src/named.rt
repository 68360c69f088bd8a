//! Labels with their endpoints, and their order.

ghost use Rattle.std.specs.Prelude.{◌≡◌, ◌≢◌, true, false};
ghost use Rattle.ds_names.specs.declared.kind.Kind.{Kind};
ghost use Rattle.ds_index.specs.Named.{slot_of, generation_of, holder_cmp, is_label_after};
ghost use Rattle.ds_index.specs.Named.{is_after_in_slot, begins_after, holds_endpoint};
ghost use Rattle.ds_index.specs.Indexed.{endpoint_left};

use ds_entry::{Body, Change, Value};
use ds_names::{Endpoint, Name};
use std::cmp::Ordering;

/// A label's name, and the endpoint that it has if it is live.
#[derive(Clone, Copy)]
pub(crate) struct Named {
    pub endpoint: Option<Endpoint>,
    pub name: Name,
}

// Returns the slot plus 1, or 0 without an endpoint.
fn slot_of(endpoint: &Option<Endpoint>) -> u16
    ensures { result ≡ slot_of endpoint.now }
{
    match endpoint {
        Some(endpoint) => endpoint.slot() + 1,
        None => 0,
    }
}

// Returns the generation, or 0 without an endpoint.
fn generation_of(endpoint: &Option<Endpoint>) -> u32
    ensures { result ≡ generation_of endpoint.now }
{
    match endpoint {
        Some(endpoint) => endpoint.generation().number(),
        None => 0,
    }
}

// Compares by slot, then by generation; `None` comes before all endpoints.
fn compare_endpoints(a: &Option<Endpoint>, b: &Option<Endpoint>) -> Ordering
    ensures { result ≡ holder_cmp a.now b.now }
{
    match slot_of(a).cmp(&slot_of(b)) {
        Ordering::Less => Ordering::Less,
        Ordering::Greater => Ordering::Greater,
        Ordering::Equal => generation_of(a).cmp(&generation_of(b)),
    }
}

// Whether the label comes after the other one of the same slot: by generation, then by name.
fn is_after_in_slot(named: &Named, other: &Named) -> bool
    ensures { result ≡ is_after_in_slot named.now other.now }
{
    match generation_of(&other.endpoint).cmp(&generation_of(&named.endpoint)) {
        Ordering::Less => true,
        Ordering::Greater => false,
        Ordering::Equal => matches!(other.name.cmp(&named.name), Ordering::Less),
    }
}

/// Whether the label comes after the other one. Most labels have slots of their own, so comparing the slots suffices.
#[tactic(auto, using(crate::proofs::NamedLemmas::slots_tell, crate::proofs::NamedLemmas::slots_agree))]
pub(crate) fn is_after(named: &Named, other: &Named) -> bool
    ensures { result ≡ is_label_after named.now other.now }
{
    let slot = slot_of(&named.endpoint);
    let other_slot = slot_of(&other.endpoint);
    if other_slot != slot {
        return other_slot < slot;
    }
    is_after_in_slot(named, other)
}

/// Whether the labels of the endpoint begin after this one.
pub(crate) fn begins_after(endpoint: Endpoint, named: &Named) -> bool
    ensures { result ≡ begins_after endpoint named.now }
{
    matches!(
        compare_endpoints(&named.endpoint, &Some(endpoint)),
        Ordering::Less
    )
}

/// Whether the label has the endpoint.
pub(crate) fn is_of(endpoint: Endpoint, named: &Named) -> bool
    ensures { result ≡ holds_endpoint endpoint named.now }
{
    match &named.endpoint {
        Some(other) => *other == endpoint,
        None => false,
    }
}

/// Returns the endpoint that a change leaves.
pub(crate) fn endpoint_in(change: &Change) -> Option<Endpoint>
    ensures { result ≡ endpoint_left change.now }
{
    match change.body() {
        Body::Put(Value::Label(endpoint)) => Some(*endpoint),
        _ => None,
    }
}

/// Returns whether the label at the index is its slot's first, among labels in order.
pub(crate) fn is_first_of_slot(names: &[Named], index: usize) -> bool {
    let Some(named) = names.get(index) else {
        return false;
    };
    if index == 0 {
        return true;
    }
    match names.get(index - 1) {
        Some(before) => slot_of(&before.endpoint) != slot_of(&named.endpoint),
        None => false,
    }
}
