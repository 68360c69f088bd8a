//! The events of a system, line by line.
//!
//! `put LABEL NAME KIND VALUE` is a Put whose value is a number, or else a text; `remove LABEL NAME KIND` is a Remove;
//! `again N` an Again. Other lines are a script's: to RS, to the driver tables (whose maps are their own, whatever
//! number the line has), and all commands to a world. `side a` and `side b` choose the store for the lines after them.
//! `N times LINE` is N such events.

use ds_entry::{Text, TextFault, Value};
use ds_names::{Key, Kind, Name};
use ds_replica::Side;
use ds_system::{SystemEvent, SystemEvents, Table};
use line_io::split_line;
use script_commands::{CommandFault, ScriptCommand, Server, read_command};
use std::alloc::Global;
use std::str::Split;
use test_kit::{Failure, name_at, number_at};

/// Parses the lines as events.
pub(crate) fn read_events(alloc: Global, lines: &str) -> Result<SystemEvents, Failure> {
    let mut events = SystemEvents::new(alloc);
    let mut side = Side::A;
    for line in lines.lines() {
        match line {
            "side a" => side = Side::A,
            "side b" => side = Side::B,
            _ => add_events(&mut events, alloc, side, line)?,
        }
    }
    Ok(events)
}

// Adds the event of a line, as many times as it says.
fn add_events(
    events: &mut SystemEvents,
    alloc: Global,
    side: Side,
    line: &str,
) -> Result<(), Failure> {
    let (count, line) = line.split_once(" times ").unwrap_or(("1", line));
    let Ok(count) = count.parse::<u32>() else {
        return Err(Failure::BadLine);
    };
    for _ in 0..count {
        add_event(events, read_event(alloc, side, line)?)?;
    }
    Ok(())
}

fn add_event(events: &mut SystemEvents, event: SystemEvent) -> Result<(), Failure> {
    match events.push(event) {
        Ok(()) => Ok(()),
        Err(_) => Err(Failure::NoRoom),
    }
}

fn read_event(alloc: Global, side: Side, line: &str) -> Result<SystemEvent, Failure> {
    let mut words = line.split(' ');
    let event = match words.next() {
        Some("put") => return read_put(alloc, side, &mut words),
        Some("remove") => read_remove(side, &mut words),
        Some("again") => read_again(side, &mut words),
        _ => return read_scripts(alloc, side, line),
    };
    match event {
        Some(event) => Ok(event),
        None => Err(Failure::BadLine),
    }
}

// Parses a script's line as an event.
fn read_scripts(alloc: Global, side: Side, line: &str) -> Result<SystemEvent, Failure> {
    if split_line(line.as_bytes()).is_some() {
        return Err(Failure::BadLine);
    }
    match read_command(alloc, line.as_bytes()) {
        Ok(command) => event_of(alloc, side, command),
        Err(CommandFault::BadLine { .. }) => Err(Failure::BadLine),
        Err(CommandFault::NoRoom) => Err(Failure::NoRoom),
    }
}

fn read_put(
    alloc: Global,
    side: Side,
    words: &mut Split<'_, char>,
) -> Result<SystemEvent, Failure> {
    let Some((label, key, word)) = read_write(words) else {
        return Err(Failure::BadLine);
    };
    let value = value_of(alloc, word)?;
    Ok(SystemEvent::Put {
        label,
        key,
        value,
        side,
    })
}

// Parses the writer and the key, and returns them with the next word.
fn read_write<'a>(words: &mut Split<'a, char>) -> Option<(Name, Key, &'a str)> {
    Some((name_at(words)?, read_key(words)?, words.next()?))
}

fn read_again(side: Side, words: &mut Split<'_, char>) -> Option<SystemEvent> {
    let change = number_at(words)?;
    Some(SystemEvent::Again { change, side })
}

fn read_remove(side: Side, words: &mut Split<'_, char>) -> Option<SystemEvent> {
    let label = name_at(words)?;
    let key = read_key(words)?;
    Some(SystemEvent::Remove { label, key, side })
}

// Returns the event of a script's command.
fn event_of(alloc: Global, side: Side, command: ScriptCommand) -> Result<SystemEvent, Failure> {
    match event_of_services(side, &command) {
        Some(event) => Ok(event),
        None => event_of_world(alloc, side, command),
    }
}

// Returns the event of a command to RS or to a driver table.
fn event_of_services(side: Side, command: &ScriptCommand) -> Option<SystemEvent> {
    if let Some((event, tick)) = command.service_event() {
        return Some(SystemEvent::Service { event, tick, side });
    }
    match command {
        ScriptCommand::Follow { .. } => Some(SystemEvent::Follow),
        ScriptCommand::Submit {
            server,
            id,
            unit,
            ..
        } => Some(SystemEvent::Submit {
            table: table_of(*server),
            id: *id,
            unit: *unit,
        }),
        ScriptCommand::Reply {
            server,
            endpoint,
            id,
        } => Some(SystemEvent::Answered {
            table: table_of(*server),
            endpoint: *endpoint,
            id: *id,
        }),
        _ => None,
    }
}

fn event_of_world(
    alloc: Global,
    side: Side,
    command: ScriptCommand,
) -> Result<SystemEvent, Failure> {
    match command.into_event(alloc, side)? {
        Some(event) => Ok(SystemEvent::World(event)),
        None => Err(Failure::BadLine),
    }
}

fn table_of(server: Server) -> Table {
    match server {
        Server::File => Table::File,
        Server::Net => Table::Net,
    }
}

fn value_of(alloc: Global, word: &str) -> Result<Value, Failure> {
    match word.parse() {
        Ok(number) => Ok(Value::U32(number)),
        Err(_) => text_of(alloc, word),
    }
}

fn text_of(alloc: Global, word: &str) -> Result<Value, Failure> {
    match Text::read(alloc, word.as_bytes()) {
        Ok(text) => Ok(Value::Str(text)),
        Err(TextFault::TooLong | TextFault::BadText) => Err(Failure::BadLine),
        Err(TextFault::NoRoom) => Err(Failure::NoRoom),
    }
}

fn read_key(words: &mut Split<'_, char>) -> Option<Key> {
    let name = name_at(words)?;
    let kind = match words.next()? {
        "label" => Kind::Label,
        "u32" => Kind::U32,
        "str" => Kind::Str,
        "mem" => Kind::Mem,
        _ => return None,
    };
    Some(Key { name, kind })
}
