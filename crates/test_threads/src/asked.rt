//! Commands to a store.

use ds_entry::Value;
use ds_machine::Command;
use ds_names::{Endpoint, Generation, Key, Kind, Kinds, Name, Version};
use ds_pattern::{PatternText, Query};
use std::alloc::Global;

// The labels that all writers change.
const LABELS: [&[u8]; 4] = [b"disk", b"eth0", b"inet", b"tty"];

/// A command of a row.
#[derive(Clone, Copy)]
pub(crate) enum Asked<'a> {
    /// RS publishes a label with this generation and this slot, over an earlier one.
    Start(&'a [u8], u32, u16),
    /// RS sweeps what a label's generations up to this one published.
    Sweep(&'a [u8], u32),
    /// Another program replaces this subscription.
    TakeOver(u32),
}

impl Asked<'_> {
    /// Returns the command, or `None` if a part of it is malformed, or if memory runs out.
    pub(crate) fn command(self, alloc: Global) -> Option<Command> {
        match self {
            Asked::Start(name, generation, slot) => start(name, generation, 0, slot),
            Asked::Sweep(name, generation) => sweep(name, generation),
            Asked::TakeOver(sub) => Some(Command::Subscribe {
                sub,
                query: query(alloc, b".*")?,
                initial: false,
                overwrite: true,
            }),
        }
    }
}

/// Returns a writer's command at one of its turns, as RS. Most often it publishes a label in a later generation than the writer did before.
/// Now and then it deletes the label, or sweeps what its driver published. Another writer may have published a later generation. Never
/// returns `None`, since all parts fit.
pub(crate) fn command_of(writer: u64, turn: u32) -> Option<Command> {
    let name = LABELS[(turn / 8 % 4) as usize];
    let generation = 1 + turn % 1_000_000;
    let number = (writer % 1000) as u16;
    match turn % 8 {
        3 => delete(name, generation, u32::from(number)),
        6 => sweep(name, generation),
        _ => start(name, generation, u32::from(number), number),
    }
}

// Returns the command by which RS publishes a label with this version and this slot, over an earlier one. `None` if a part is malformed.
fn start(name: &[u8], generation: u32, seq: u32, slot: u16) -> Option<Command> {
    let epoch = Generation::of(generation)?;
    Some(Command::Publish {
        caller: Endpoint::rs(),
        key: label(name)?,
        version: Version { epoch, seq },
        value: Value::Label(Endpoint::of(epoch, slot)?),
        overwrite: true,
    })
}

// Returns the command by which RS deletes a label with this version. `None` if a part is malformed.
fn delete(name: &[u8], generation: u32, seq: u32) -> Option<Command> {
    let epoch = Generation::of(generation)?;
    Some(Command::Delete {
        caller: Endpoint::rs(),
        key: label(name)?,
        version: Version { epoch, seq },
    })
}

// Returns the command by which RS sweeps what a label's generations up to this one published. `None` if a part is malformed.
fn sweep(name: &[u8], generation: u32) -> Option<Command> {
    Some(Command::Sweep {
        caller: Endpoint::rs(),
        owner: Name::read(name).ok()?,
        generation: Generation::of(generation)?,
    })
}

// Returns the key of a label, or `None` if the bytes aren't a name.
fn label(name: &[u8]) -> Option<Key> {
    Some(Key {
        name: Name::read(name).ok()?,
        kind: Kind::Label,
    })
}

/// Returns a query of all kinds, or `None` if memory runs out.
pub(crate) fn query(alloc: Global, pattern: &[u8]) -> Option<Query> {
    Some(Query {
        text: PatternText::of(alloc, pattern).ok()?,
        kinds: Kinds::of(15)?,
    })
}
