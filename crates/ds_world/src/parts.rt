//! Functions for the prover alone: the parts of commands and items are in their ranges, and maps are sound, as their types guarantee.

ghost use Rattle.std.specs.Prelude.{◌<◌, ◌≤◌, ◌^◌, All};
ghost use Rattle.ds_names.specs.Name.{IsName};
ghost use Rattle.ds_entry.specs.Item.{IsItem};
ghost use Rattle.ds_entry.specs.declared.body.Body.TheVariants.{Put};
ghost use Rattle.ds_replica.specs.Bringing.{AreParts, IsProper};
ghost use Rattle.ds_submap.specs.Map.{IsMap};

use ds_entry::{Item, Value};
use ds_machine::Command;
use ds_names::{Key, Version};
use ds_submap::SubMap;

// For the prover alone: a command's parts are in their ranges.
pub(crate) fn command_proof(command: &Command)
    ensures { IsProper command.now }
{
    match command {
        Command::Publish {
            key,
            version,
            value,
            ..
        } => published_proof(key, version, value),
        Command::Delete { key, version, .. } => version_proof(key, version),
        Command::Sweep {
            owner,
            generation,
            ..
        } => {
            let _owner = owner.bytes();
            let _generation = generation.number();
        }
        Command::Merge { items } => items_proof(items.as_slice()),
        Command::Retrieve { .. }
        | Command::NameOf { .. }
        | Command::Subscribe { .. }
        | Command::Check { .. }
        | Command::Since { .. }
        | Command::Snapshot { .. }
        | Command::Page { .. } => {}
    }
}

// For the prover alone: so are those of a publication.
fn published_proof(key: &Key, version: &Version, value: &Value)
    ensures { AreParts key.now version.now (Put value.now) }
{
    let _kind = value.kind();
    version_proof(key, version);
}

// For the prover alone: so are those of a key and a version.
fn version_proof(key: &Key, version: &Version)
    ensures name { IsName key.now.name }
    ensures epoch { version.now.epoch ≤ 2097151 }
    ensures seq { version.now.seq < 2 ^ 32 }
{
    let _name = key.name.bytes();
    let _epoch = version.epoch.number();
    let _seq = version.seq;
}

// For the prover alone: so are those of items.
fn items_proof(items: &[Item])
    ensures { All IsItem items.now }
{
    for item in items {
        item_proof(item);
    }
}

// For the prover alone: so are those of an item.
pub(crate) fn item_proof(item: &Item)
    ensures { IsItem item.now }
{
    match item {
        Item::Change(change) => {
            let _key = change.key();
        }
        Item::Floor(floor) => {
            let _owner = floor.owner.bytes();
            let _generation = floor.generation.number();
        }
    }
}

// For the prover alone: a map is sound.
pub(crate) fn map_proof(map: &SubMap)
    ensures { IsMap map.now }
{
    let _held = map.held();
}
