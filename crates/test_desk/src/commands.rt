//! Commands to a store.

use ds_entry::{Body, Change, Floor, Item, Items, Value};
use ds_machine::Command;
use ds_names::{Endpoint, Generation, Key, Kind, Kinds, Name, Version};
use ds_pattern::{PatternText, Query};
use std::alloc::Global;

/// A driver that RS started: its label, and its endpoint.
#[derive(Clone, Copy)]
pub(crate) struct Driver {
    key: Key,
    endpoint: Endpoint,
}

/// Returns the driver with a label and an endpoint, or `None` if one of the parts is out of its range.
pub(crate) fn driver_of(label: &[u8], generation: u32, slot: u16) -> Option<Driver> {
    let key = Key {
        name: Name::read(label).ok()?,
        kind: Kind::Label,
    };
    let endpoint = Endpoint::of(Generation::of(generation)?, slot)?;
    Some(Driver { key, endpoint })
}

/// The commands about a driver.
#[derive(Clone, Copy)]
pub(crate) enum Asked {
    /// RS publishes the driver's label, over that of an earlier generation.
    Start,
    /// RS deletes the driver's label, of this generation or an earlier one.
    Delete,
    /// RS sweeps what the driver published up to this generation.
    Sweep,
    /// A Retrieve of the driver's label.
    Retrieve,
    /// A NameOf of the driver's endpoint.
    NameOf,
}

impl Driver {
    /// Returns the command.
    pub(crate) fn ask(&self, asked: Asked) -> Command {
        let Driver { key, endpoint } = *self;
        let caller = Endpoint::rs();
        let epoch = endpoint.generation();
        match asked {
            Asked::Start => Command::Publish {
                caller,
                key,
                version: Version { epoch, seq: 0 },
                value: Value::Label(endpoint),
                overwrite: true,
            },
            Asked::Delete => Command::Delete {
                caller,
                key,
                version: Version { epoch, seq: 1 },
            },
            Asked::Sweep => Command::Sweep {
                caller,
                owner: key.name,
                generation: epoch,
            },
            Asked::Retrieve => Command::Retrieve { key },
            Asked::NameOf => Command::NameOf { endpoint },
        }
    }
}

/// Returns a Subscribe to all that comes later, in place of any subscription of this number. `None` if memory runs out.
pub(crate) fn follow(alloc: Global, sub: u32) -> Option<Command> {
    let kinds = Kinds::of(15)?;
    let text = PatternText::of(alloc, b".*").ok()?;
    Some(Command::Subscribe {
        sub,
        query: Query { text, kinds },
        initial: false,
        overwrite: true,
    })
}

/// Returns a Merge of two items of a driver: a floor under half of its generations, and a number that it published in the last one.
/// `None` if memory runs out.
pub(crate) fn merge(alloc: Global, driver: &Driver, number: u32) -> Option<Command> {
    let mut items = Items::new(alloc);
    add_items(&mut items, driver, number)?;
    Some(Command::Merge { items })
}

fn add_items(items: &mut Items, driver: &Driver, number: u32) -> Option<()> {
    let owner = driver.key.name;
    let epoch = driver.endpoint.generation();
    let generation = Generation::of(epoch.number() / 2)?;
    items.push(Item::Floor(Floor { owner, generation })).ok()?;
    let key = Key {
        name: owner,
        kind: Kind::U32,
    };
    let version = Version { epoch, seq: number };
    let change = Change::make(key, owner, version, Body::Put(Value::U32(number))).ok()?;
    items.push(Item::Change(change)).ok()
}

/// Returns the label of the driver of a number, with the number's last twelve digits. 64 threads make fewer calls than these digits count.
pub(crate) fn label_of(number: u64) -> [u8; 18] {
    let mut label = *b"driver000000000000";
    let mut rest = number;
    for digit in 0..12 {
        label[17 - digit] = b'0' + (rest % 10) as u8;
        rest /= 10;
    }
    label
}
