//! A system, and its events.

use crate::again::made_again;
use crate::lines::read_events;
use crate::telling::{tell_entries, tell_outcome};
use crate::words::tell;
use ds_names::NoRoom;
use ds_replica::Seed;
use ds_system::{BeginFault, System, SystemEvents, SystemOutcomes};
use ds_world::{World, WorldFault};
use rs_settings::{Settings, SettingsCause, read};
use std::alloc::Global;
use std::str::Split;
use test_kit::{Failure, number_at};

/// Begins a system from the lines of a part up to `end`, and appends the outcomes of the events on the others; or why
/// no system begins.
pub(crate) fn answer_part(text: &mut Vec<u8>, alloc: Global, part: &str) -> Result<(), Failure> {
    let Some((beginning, settings, lines)) = read_part(part) else {
        return Err(Failure::BadLine);
    };
    match read(alloc, settings.as_bytes()) {
        Ok(settings) => answer_lines(text, alloc, beginning, settings, lines),
        Err(fault) => match fault.cause {
            SettingsCause::NoRoom => Err(Failure::NoRoom),
            _ => Err(Failure::BadLine),
        },
    }
}

// Splits a part into how its system begins, its settings, and the lines of events.
fn read_part(part: &str) -> Option<(Beginning, &str, &str)> {
    let (first, rest) = part.split_once('\n')?;
    let (settings, lines) = rest.split_once("\nend")?;
    Some((read_beginning(first)?, settings, lines.trim_start()))
}

fn answer_lines(
    text: &mut Vec<u8>,
    alloc: Global,
    beginning: Beginning,
    settings: Settings,
    lines: &str,
) -> Result<(), Failure> {
    let Beginning { next, a, b } = beginning;
    match System::new(alloc, settings, a, b, next) {
        Ok(mut system) => answer_events(text, alloc, &mut system, lines),
        Err(fault) => tell_no_system(text, fault),
    }
}

// Appends why no system begins, unless memory ran out.
fn tell_no_system(text: &mut Vec<u8>, fault: BeginFault) -> Result<(), Failure> {
    let line: &[u8] = match fault {
        BeginFault::OutOfRange => b"refused outofrange",
        BeginFault::BadRing => b"refused badring",
        BeginFault::BadFirst => b"refused badfirst",
        BeginFault::OldIncarnation => b"refused oldincarnation",
        BeginFault::NoRoom => return Err(Failure::NoRoom),
    };
    Ok(tell(text, line)?)
}

/// How a system begins, apart from its settings.
#[derive(Clone, Copy)]
struct Beginning {
    next: u32,
    a: Seed,
    b: Seed,
}

fn read_beginning(line: &str) -> Option<Beginning> {
    let mut words = line.strip_prefix("system ")?.split(' ');
    Some(Beginning {
        next: number_at(&mut words)?,
        a: read_seed(&mut words)?,
        b: read_seed(&mut words)?,
    })
}

fn read_seed(words: &mut Split<'_, char>) -> Option<Seed> {
    Some(Seed {
        incarnation: number_at(words)?,
        first: number_at(words)?,
        ring: number_at(words)?,
    })
}

// Runs a copy of the events, as a test that a copy has all of them.
fn answer_events(
    text: &mut Vec<u8>,
    alloc: Global,
    system: &mut System,
    lines: &str,
) -> Result<(), Failure> {
    let events = read_events(alloc, lines)?;
    match events.copy(alloc) {
        Ok(copy) => answer_copy(text, alloc, system, copy),
        Err(NoRoom) => Err(Failure::NoRoom),
    }
}

fn answer_copy(
    text: &mut Vec<u8>,
    alloc: Global,
    system: &mut System,
    events: SystemEvents,
) -> Result<(), Failure> {
    match system.run(events) {
        Ok(outcomes) => Ok(tell_copy(text, alloc, system.world(), &outcomes)?),
        Err(WorldFault::TooMany) => Ok(tell(text, b"refused toomany")?),
        Err(WorldFault::NoRoom) => Err(Failure::NoRoom),
    }
}

// Appends a copy of the outcomes, whose lists are new ones with copies of what was in them.
fn tell_copy(
    text: &mut Vec<u8>,
    alloc: Global,
    world: &World,
    outcomes: &SystemOutcomes,
) -> Result<(), NoRoom> {
    let copy = outcomes.copy(alloc)?;
    let again = made_again(alloc, &copy)?;
    tell_all(text, alloc, world, &again)
}

// Appends the outcome of each event, and then what the servers' maps hold.
fn tell_all(
    text: &mut Vec<u8>,
    alloc: Global,
    world: &World,
    outcomes: &SystemOutcomes,
) -> Result<(), NoRoom> {
    for index in 0..outcomes.len() {
        if let Some(outcome) = outcomes.get(index) {
            tell_outcome(text, alloc, world, outcome)?;
        }
    }
    tell_entries(text, alloc, world, 0)?;
    tell_entries(text, alloc, world, 1)
}
