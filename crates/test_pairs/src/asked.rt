//! A caller's commands.

use crate::new_pair::{LABELS, beginning};
use ds_entry::Value;
use ds_machine::{Command, Scope};
use ds_names::{Endpoint, Generation, Key, Kind, Kinds, Name, Version};
use ds_pattern::{PatternText, Query};
use rs_core::Event;
use rs_store::RsCommand;
use std::alloc::Global;

/// What a caller knows when it makes a call, in one number for a call's record.
#[derive(Clone, Copy)]
pub(crate) struct Known {
    /// The number of the caller's subscription, 32 to 63.
    pub caller: u32,
    /// How many calls it has seen.
    pub seen: u64,
    /// The generation of the instance that it knows. At first that is 1/0, which never runs.
    pub generation: u32,
    /// The slot.
    pub slot: u16,
}

impl Known {
    /// Returns the number. It has the last 24 bits of `seen`.
    pub(crate) fn number(self) -> u64 {
        let generation = u64::from(self.generation % 2_097_152);
        let slot = u64::from(self.slot % 1024);
        let instance = generation.wrapping_mul(1024).wrapping_add(slot);
        let seen = self.seen % 16_777_216;
        let both = seen.wrapping_mul(2_147_483_648).wrapping_add(instance);
        both.wrapping_mul(64)
            .wrapping_add(u64::from(self.caller % 64))
    }

    /// Returns what a number has.
    pub(crate) fn of(number: u64) -> Known {
        let instance = number / 64 % 2_147_483_648;
        Known {
            caller: (number % 64) as u32,
            seen: number / 64 / 2_147_483_648,
            generation: (instance / 1024) as u32,
            slot: (instance % 1024) as u16,
        }
    }

    // Returns the instance that the caller knows.
    fn instance(self) -> Option<Endpoint> {
        Endpoint::of(Generation::of(self.generation)?, self.slot)
    }
}

/// Returns the command of a caller's turn. In 16 turns it sends each event, and commands as the service's instance and as RS. In its first
/// turn RS begins, unless it has begun. `None` if memory runs out.
pub(crate) fn command_of(alloc: Global, known: Known, turn: u32) -> Option<RsCommand> {
    if turn == 0 {
        return beginning(alloc);
    }
    let name = service_of(known, turn)?;
    match turn % 16 {
        1 => event(known, Event::Up(name)),
        4 | 9 => event(known, Event::Beat(known.instance()?)),
        5 | 10 | 13 => event(known, Event::Tick),
        6 => event(
            known,
            Event::Death(known.instance()?, 1 + u64::from(turn / 16 % 6)),
        ),
        8 if turn % 64 == 24 => event(known, Event::Stop(name)),
        8 => event(known, Event::Restart(name)),
        12 => event(known, Event::Refresh(name)),
        _ => Some(RsCommand::Ask(ask_of(alloc, known, name, turn)?)),
    }
}

// Returns the name of the service with which the caller deals in these 16 turns.
fn service_of(known: Known, turn: u32) -> Option<Name> {
    let index = known.caller.wrapping_add(turn / 16) % 4;
    Name::read(LABELS[index as usize]).ok()
}

// Returns an event at the caller's tick: a 32nd of the calls that it has seen.
fn event(known: Known, event: Event) -> Option<RsCommand> {
    let tick = known.seen / 32;
    Some(RsCommand::Tell { event, tick })
}

// Returns a command to the store.
fn ask_of(alloc: Global, known: Known, name: Name, turn: u32) -> Option<Command> {
    match turn % 16 {
        3 | 7 | 11 => publish(known.instance()?, name, turn),
        14 if turn % 32 == 14 => sweep(name, known.generation),
        14 => subscribe(alloc, known.caller),
        15 if turn % 32 == 15 => Some(Command::Check {
            sub: known.caller,
            max: 8,
        }),
        15 => Some(Command::Snapshot { scope: Scope::All }),
        _ => Some(Command::Retrieve {
            key: key_of(name, Kind::Label),
        }),
    }
}

// Publishes a number as the service's instance.
fn publish(caller: Endpoint, name: Name, turn: u32) -> Option<Command> {
    let epoch = caller.generation();
    Some(Command::Publish {
        caller,
        key: key_of(name, Kind::U32),
        version: Version { epoch, seq: turn },
        value: Value::U32(turn),
        overwrite: true,
    })
}

// Sweeps a service in RS's name, which a client may not.
fn sweep(owner: Name, generation: u32) -> Option<Command> {
    Some(Command::Sweep {
        caller: Endpoint::rs(),
        owner,
        generation: Generation::of(generation)?,
    })
}

// Subscribes to all that comes later, in place of any subscription of this number.
fn subscribe(alloc: Global, caller: u32) -> Option<Command> {
    Some(Command::Subscribe {
        sub: caller,
        query: query(alloc, b".*")?,
        initial: false,
        overwrite: true,
    })
}

fn key_of(name: Name, kind: Kind) -> Key {
    Key { name, kind }
}

/// Returns a query of all kinds, or `None` if memory runs out.
pub(crate) fn query(alloc: Global, pattern: &[u8]) -> Option<Query> {
    Some(Query {
        text: PatternText::of(alloc, pattern).ok()?,
        kinds: Kinds::of(15)?,
    })
}
