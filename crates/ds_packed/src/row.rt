//! Rows: items without the bytes of their names.

ghost use Rattle.std.specs.Prelude.{◌≡◌, ◌≤◌, length, IfSome};
ghost use Rattle.ds_entry.specs.Change.{IsChange};
ghost use Rattle.ds_entry.specs.declared.item.Item.TheVariants.{Change as Changed};
ghost use Rattle.ds_names.specs.Endpoint.{endpoint_of};
ghost use Rattle.ds_names.specs.Name.{IsName};
ghost use Rattle.ds_entry.specs.Item.{IsItem};
ghost use Rattle.ds_packed.specs.Names.{names_length};
ghost use Rattle.ds_packed.specs.Row.{labelled, named, row_item, row_length, AddsRow};

use crate::names::{Names, add_names, name_of};
use ds_entry::{Body, Change, Floor, Item, Value};
use ds_names::{Endpoint, Generation, Key, Kind, Name, Version};

/// An item without the bytes of its names, but with their places. A change in a row is a label, a number, or a tombstone
/// of any kind.
#[derive(Clone, Copy)]
pub(crate) enum Row {
    /// A label. Neither its owner nor its version is kept: they are `rs`, and number 0 in its endpoint's generation.
    Label {
        name: u8,
        slot: u16,
        generation: Generation,
    },
    U32 {
        names: Names,
        version: Version,
        number: u32,
    },
    Gone {
        names: Names,
        version: Version,
        kind: Kind,
    },
    Floor {
        owner: u8,
        generation: Generation,
    },
}

impl Row {
    // Returns the row of an item, and appends its names to the bytes. Returns `None` if it has a str or mem value, or if
    // memory runs out.
    #[inline(always)]
    pub(crate) fn of(item: &Item, names: &mut Vec<u8>) -> Option<Row>
        ensures row { IfSome result (λ row. AddsRow item.now row names.old.items names.new.items) }
        ensures item { IsItem item.now }
    {
        match item {
            Item::Change(change) => Row::of_change(change, names),
            Item::Floor(floor) => {
                let owner = floor.owner.bytes();
                let generation = floor.generation;
                let _generation = generation.number();
                names.extend_from_slice(owner).ok()?;
                Some(Row::Floor {
                    owner: owner.len() as u8,
                    generation,
                })
            }
        }
    }

    // Like `of`, for a change.
    #[inline(always)]
    fn of_change(change: &Change, names: &mut Vec<u8>) -> Option<Row>
        ensures row { IfSome result (λ row. AddsRow (Changed change.now) row names.old.items names.new.items) }
        ensures item { IsChange change.now }
    {
        let version = change.version();
        match change.body() {
            Body::Put(Value::Label(endpoint)) => {
                let name = change.key().name.bytes();
                names.extend_from_slice(name).ok()?;
                Some(Row::Label {
                    name: name.len() as u8,
                    slot: endpoint.slot(),
                    generation: endpoint.generation(),
                })
            }
            Body::Put(Value::U32(number)) => Some(Row::U32 {
                names: add_names(change, names)?,
                version,
                number: *number,
            }),
            Body::Gone => Some(Row::Gone {
                names: add_names(change, names)?,
                version,
                kind: change.key().kind,
            }),
            Body::Put(Value::Str(_) | Value::Mem(_)) => None,
        }
    }

    // Builds the item of a row whose names are at the front of the bytes.
    pub(crate) fn item(self, names: &[u8]) -> Item
        requires within { row_length self ≤ length names.now }
        requires item { IsItem (row_item names.now self) }
        ensures { result ≡ row_item names.now self }
    {
        match self {
            Row::Label {
                name,
                slot,
                generation,
            } => {
                let name = name_of(&names[..usize::from(name)]);
                label_of(name, endpoint_of(generation, slot))
            }
            Row::U32 {
                names: place,
                version,
                number,
            } => {
                let body = Body::Put(Value::U32(number));
                change_of(names, place, Kind::U32, version, body)
            }
            Row::Gone {
                names: place,
                version,
                kind,
            } => change_of(names, place, kind, version, Body::Gone),
            Row::Floor { owner, generation } => Item::Floor(Floor {
                owner: name_of(&names[..usize::from(owner)]),
                generation,
            }),
        }
    }

    // Returns the number of bytes that the row's names take.
    pub(crate) fn length(self) -> usize
        ensures { result ≡ row_length self }
    {
        match self {
            Row::Label { name, .. } => usize::from(name),
            Row::U32 { names, .. } | Row::Gone { names, .. } => names.length(),
            Row::Floor { owner, .. } => usize::from(owner),
        }
    }
}

// Builds the put of a label.
fn label_of(name: Name, endpoint: Endpoint) -> Item
    requires { IsChange (labelled name endpoint) }
    ensures { result ≡ Changed (labelled name endpoint) }
{
    let key = Key {
        name,
        kind: Kind::Label,
    };
    let version = Version {
        epoch: endpoint.generation(),
        seq: 0,
    };
    let body = Body::Put(Value::Label(endpoint));
    Item::Change(Change::from_parts(key, Name::rs(), version, body))
}

// Builds the change whose names are at the front of the bytes.
fn change_of(names: &[u8], place: Names, kind: Kind, version: Version, body: Body) -> Item
    requires within { names_length place ≤ length names.now }
    requires change { IsChange (named names.now place kind version body) }
    ensures { result ≡ Changed (named names.now place kind version body) }
{
    let key = Key {
        name: name_of(place.key_name_in(names)),
        kind,
    };
    let owner = name_of(place.owner_in(names));
    Item::Change(Change::from_parts(key, owner, version, body))
}

// Returns the endpoint of a generation and a slot.
fn endpoint_of(generation: Generation, slot: u16) -> Endpoint
    requires { slot ≤ 1023 }
    ensures { result ≡ endpoint_of generation slot }
{
    match Endpoint::of(generation, slot) {
        Some(endpoint) => endpoint,
        None => unreachable!(),
    }
}
