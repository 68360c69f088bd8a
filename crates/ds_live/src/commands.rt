//! The commands of the workers.

ghost use Rattle.std.specs.Prelude.{◌≡◌, ◌<◌, IfOk};
ghost use Rattle.ds_live.specs.Commands.{every_key, publisher_number, publisher_label, publisher};

use ds_entry::Value;
use ds_machine::Command;
use ds_names::{Endpoint, Generation, Key, Kind, Kinds, Name, NoRoom, Version};
use ds_pattern::{PatternText, Query};
use std::alloc::Global;

// Returns the endpoint of a publisher.
fn publisher(index: u32) -> Endpoint
    requires { index < 8 }
    ensures { result ≡ publisher index }
{
    let Some(generation) = Generation::of(index + 1) else {
        unreachable!()
    };
    let Some(endpoint) = Endpoint::of(generation, 16 + index as u16) else {
        unreachable!()
    };
    endpoint
}

// Returns the first version of an endpoint's generation.
fn first_version(endpoint: Endpoint) -> Version
    ensures { (result.epoch ≡ endpoint.generation) × (result.seq ≡ 0) }
{
    Version {
        epoch: endpoint.generation(),
        seq: 0,
    }
}

/// Returns the command by which RS publishes the label of publisher `index`, 0 to 7. The labels are `p0` to `p7`.
pub(crate) fn label(index: u32) -> Command
    requires { index < 8 }
    ensures { result ≡ publisher_label index }
{
    let Ok(name) = Name::read(&[b'p', b'0' + index as u8]) else {
        unreachable!()
    };
    let endpoint = publisher(index);
    Command::Publish {
        caller: Endpoint::rs(),
        key: Key {
            name,
            kind: Kind::Label,
        },
        version: first_version(endpoint),
        value: Value::Label(endpoint),
        overwrite: true,
    }
}

/// Returns the command by which publisher `index`, 0 to 7, overwrites its number. The numbers' names are `n0` to `n7`.
pub(crate) fn change(index: u32, turn: u32) -> Command
    requires { index < 8 }
    ensures { result ≡ publisher_number index turn }
{
    let Ok(name) = Name::read(&[b'n', b'0' + index as u8]) else {
        unreachable!()
    };
    let endpoint = publisher(index);
    Command::Publish {
        caller: endpoint,
        key: Key {
            name,
            kind: Kind::U32,
        },
        version: Version {
            seq: turn,
            ..first_version(endpoint)
        },
        value: Value::U32(turn),
        overwrite: true,
    }
}

/// Returns the query of all keys.
pub fn everything(alloc: Global) -> Result<Query, NoRoom>
    ensures { IfOk result (λ query. query ≡ every_key) }
{
    let Some(kinds) = Kinds::of(15) else {
        unreachable!()
    };
    Ok(Query {
        text: PatternText::of(alloc, b".*")?,
        kinds,
    })
}
