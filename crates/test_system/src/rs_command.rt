//! The commands of a section of RS.

use ds_names::{Endpoint, Generation, Key, Kind, Name};
use rs_core::Event;
use std::str::Split;
use test_kit::{name_at, number_at};

/// The command of a line.
#[derive(Clone, Copy)]
pub(crate) enum Command {
    /// `settings NEXT`: RS begins with the settings text in the lines up to `end`, and with this generation next.
    Settings(u32),
    /// `up LABEL TICK`, also `stop`, `refresh` and `restart`; `death ENDPOINT CAUSE TICK`; `beat ENDPOINT TICK`;
    /// `tick TICK`.
    Event { event: Event, tick: u64 },
    /// `state LABEL`: the state of the service.
    State(Name),
    /// `key`: the key of the next free slot.
    Key,
    /// `next`: the generation of the next start.
    Next,
    /// `due`: the first tick at which a tick has actions.
    Due,
    /// `service INDEX`: the state of the service with this index.
    Service(usize),
    /// `instance ENDPOINT`: the index of the service that runs under the endpoint.
    Instance(Endpoint),
    /// `publishes ENDPOINT NAME`: whether this instance may publish a number under this name. `labels ENDPOINT NAME`:
    /// whether it may publish a label.
    Publishes(Endpoint, Key),
    /// `complains ENDPOINT LABEL`: whether this instance may complain of this service.
    Complains(Endpoint, Name),
    /// `connects ENDPOINT LABEL`: whether this instance may connect to this service.
    Connects(Endpoint, Name),
    /// `numbers GENERATION SEQ`: a numberer begins.
    Numbers { generation: Generation, seq: u32 },
    /// `number`: the numberer's next number.
    Number,
    /// `rows`: the rows that are printed once.
    Rows,
}

/// Parses the command of a line, if it is one. Words after it are ignored.
pub(crate) fn read_command(line: &str) -> Option<Command> {
    let mut words = line.split(' ');
    match words.next()? {
        "settings" => Some(Command::Settings(number_at(&mut words)?)),
        "key" => Some(Command::Key),
        "next" => Some(Command::Next),
        "due" => Some(Command::Due),
        "service" => Some(Command::Service(number_at(&mut words)?)),
        "instance" => Some(Command::Instance(read_endpoint(&mut words)?)),
        "publishes" => read_publishes(Kind::U32, &mut words),
        "labels" => read_publishes(Kind::Label, &mut words),
        "complains" => Some(Command::Complains(read_endpoint(&mut words)?, name_at(&mut words)?)),
        "connects" => Some(Command::Connects(read_endpoint(&mut words)?, name_at(&mut words)?)),
        "number" => Some(Command::Number),
        "rows" => Some(Command::Rows),
        "numbers" => read_numbers(&mut words),
        "state" => Some(Command::State(name_at(&mut words)?)),
        verb => Some(Command::Event {
            event: read_event(verb, &mut words)?,
            tick: number_at(&mut words)?,
        }),
    }
}

fn read_publishes(kind: Kind, words: &mut Split<'_, char>) -> Option<Command> {
    let endpoint = read_endpoint(words)?;
    let name = name_at(words)?;
    Some(Command::Publishes(endpoint, Key { name, kind }))
}

fn read_numbers(words: &mut Split<'_, char>) -> Option<Command> {
    Some(Command::Numbers {
        generation: Generation::of(number_at(words)?)?,
        seq: number_at(words)?,
    })
}

// Parses the event of a line, without its tick.
fn read_event(verb: &str, words: &mut Split<'_, char>) -> Option<Event> {
    match verb {
        "death" => Some(Event::Death(read_endpoint(words)?, number_at(words)?)),
        "beat" => Some(Event::Beat(read_endpoint(words)?)),
        "tick" => Some(Event::Tick),
        _ => event_of(verb, name_at(words)?),
    }
}

// Returns the event about a service.
fn event_of(verb: &str, label: Name) -> Option<Event> {
    match verb {
        "up" => Some(Event::Up(label)),
        "stop" => Some(Event::Stop(label)),
        "refresh" => Some(Event::Refresh(label)),
        "restart" => Some(Event::Restart(label)),
        _ => None,
    }
}

fn read_endpoint(words: &mut Split<'_, char>) -> Option<Endpoint> {
    Endpoint::read(words.next()?.as_bytes()).ok()
}
