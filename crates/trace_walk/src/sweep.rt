//! Sweeps of format 1, which leave tombstones.

ghost use Rattle.std.specs.Prelude.{◌≡◌, ◌≤◌, true, length, Some, IfOk};
ghost use Rattle.std.specs.List.{slice_get};
ghost use Rattle.std.specs.Option.{option_and_then};
ghost use Rattle.ds_held.specs.Held.{held_items, held_changes};
ghost use Rattle.trace_walk.specs.Sweep.{is_swept, tombstone, tombstones};
ghost use Rattle.trace_walk.specs.Sweeping.{tombstone_over, older_of, MergesPart, SweepsInMerges};

use crate::header::Format;
use crate::merges::Merges;
use ds_entry::{Body, Change, Item, Items};
use ds_held::{Held, Limits};
use ds_machine::{Command, Refusal, Reply};
use ds_names::limits::{LAST_PLACE, LAST_SEQ, MOST_ITEMS};
use ds_names::{Endpoint, Generation, Name, NoRoom, Version};
use ds_store::Store;
use script_commands::ScriptCommand;
use std::alloc::Global;

/// A sweep that RS sends.
#[derive(Clone, Copy)]
pub struct Sweep {
    pub caller: Endpoint,
    pub owner: Name,
    pub generation: Generation,
}

/// Returns the sweep of format 1 that the command is, if it is one.
pub fn older(command: &ScriptCommand, format: Format) -> Option<Sweep>
    ensures { result ≡ older_of format command.now }
{
    match (format, command) {
        (
            Format::One,
            ScriptCommand::Store(
                Command::Sweep {
                    caller,
                    owner,
                    generation,
                },
            ),
        ) => Some(Sweep {
            caller: *caller,
            owner: *owner,
            generation: *generation,
        }),
        _ => None,
    }
}

/// Sweeps as in format 1: each live entry of an owner up to a generation, labels aside, gets a tombstone of that
/// generation with the last sequence number. Returns the store's reply, and the sweep as entries of format 2 for a pass
/// and a store of these limits.
pub fn sweep_older(
    alloc: Global,
    store: &mut Store,
    pass: u64,
    limits: Limits,
    sweep: Sweep,
) -> Result<(Reply, Merges), NoRoom>
    ensures { IfOk result (λ r. SweepsInMerges store.old pass limits sweep r store.new) }
{
    let mut merges = Merges::new(alloc);
    if sweep.caller != Endpoint::rs() {
        return Ok((Reply::Refused(Refusal::NotAllowed), merges));
    }
    let gone = tombstones(alloc, store.held(), &sweep)?;
    if store.cursor().position + gone.len() as u64 > LAST_PLACE {
        return Ok((Reply::Refused(Refusal::Worn), merges));
    }
    let count = gone.len();
    let mut owed = 0;
    let mut rest = gone.as_slice();
    while !rest.is_empty() {
        let (batch, more) = rest.split_at(rest.len().min(MOST_ITEMS));
        let mask = merge_part(alloc, store, batch)?;
        merges.add(alloc, pass, limits, batch, mask)?;
        owed |= mask;
        rest = more;
    }
    Ok((Reply::Swept { count, owed }, merges))
}

// Returns the tombstones of a sweep, in key order.
fn tombstones(alloc: Global, held: &Held, sweep: &Sweep) -> Result<Items, NoRoom>
    ensures all { IfOk result (λ gone. gone ≡ tombstones (held_items held.now) sweep.now.owner sweep.now.generation) }
    ensures few { IfOk result (λ gone. length gone ≤ 4096) }
{
    let mut gone = Items::new(alloc);
    let most = held.limits().keys();
    prove!(most <= 4096);
    for index in 0..held.len() {
        if let Some(tombstone) = tombstone_at(held, index, sweep) {
            gone.push(tombstone)?;
        }
    }
    Ok(gone)
}

// Returns the tombstone for the change at an index, if the sweep ends it.
fn tombstone_at(held: &Held, index: usize, sweep: &Sweep) -> Option<Item>
    ensures { result ≡ option_and_then (tombstone_over sweep.now.owner sweep.now.generation) (slice_get (held_changes held.now) index) }
{
    let change = held.at(index)?;
    if !is_swept(change, sweep) {
        return None;
    }
    tombstone(change, sweep)
}

// Whether a sweep ends the change: a live entry of the owner's, not a label, of a generation up to the sweep's.
fn is_swept(change: &Change, sweep: &Sweep) -> bool
    ensures { result ≡ is_swept sweep.now.owner sweep.now.generation change.now }
{
    !change.key().kind.is_label()
        && change.body().value().is_some()
        && change.owner() == &sweep.owner
        && change.version().epoch.number() <= sweep.generation.number()
}

// Returns the tombstone for a change that a sweep ends.
fn tombstone(change: &Change, sweep: &Sweep) -> Option<Item>
    requires { is_swept sweep.now.owner sweep.now.generation change.now ≡ true }
    ensures { result ≡ Some (tombstone sweep.now.owner sweep.now.generation change.now) }
{
    let version = Version {
        epoch: sweep.generation,
        seq: LAST_SEQ,
    };
    match Change::make(*change.key(), sweep.owner, version, Body::Gone) {
        Ok(tombstone) => Some(Item::Change(tombstone)),
        Err(_) => None,
    }
}

// Merges some of the tombstones, and returns the mask of what they owe.
fn merge_part(alloc: Global, store: &mut Store, part: &[Item]) -> Result<u128, NoRoom>
    requires few { length part.now ≤ 256 }
    ensures { IfOk result (λ mask. MergesPart store.old part.now mask store.new) }
{
    let items = Items::copies(alloc, part)?;
    let reply = store.apply(Command::Merge { items });
    let Reply::Merged { owed, .. } = reply else {
        return Err(NoRoom);
    };
    Ok(owed)
}
