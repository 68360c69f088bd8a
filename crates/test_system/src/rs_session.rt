//! Lines to RS.

use crate::rs_command::{Command, read_command};
use crate::rs_rows::tell_rows;
use crate::rs_telling::{tell_new_fault, tell_settings_fault, tell_state, tell_version};
use crate::words::{tell, tell_index, tell_number, tell_numbers};
use ds_line::append_all;
use ds_names::{Name, NoRoom};
use rs_core::{Actions, Event, Numberer, Rs};
use rs_settings::read_any;
use script_answers::{append_action, append_action_count, append_rs_fault, append_settings};
use std::alloc::Global;
use test_kit::Failure;

const NO_SETTINGS: &[u8] = b"refused nosettings";

/// RS, once settings were accepted, and a numberer, once one began.
#[derive(Drop)]
pub(crate) struct Session {
    alloc: Global,
    // The lines of settings.
    settings: String,
    // While settings are read: the generation that is RS's next one then.
    next: Option<u32>,
    rs: Option<Rs>,
    numbers: Option<Numberer>,
}

impl Session {
    /// Returns a session without either.
    pub(crate) fn new(alloc: Global) -> Session {
        Session {
            alloc,
            settings: String::new(alloc),
            next: None,
            rs: None,
            numbers: None,
        }
    }

    /// Adds a line of settings, or answers a command.
    pub(crate) fn take(&mut self, text: &mut Vec<u8>, line: &str) -> Result<(), Failure> {
        if let Some(next) = self.next {
            return Ok(self.read_on(text, next, line)?);
        }
        match read_command(line) {
            Some(command) => Ok(self.answer(text, command)?),
            None => Err(Failure::BadLine),
        }
    }

    // Adds a line of settings, or begins RS at their end.
    fn read_on(&mut self, text: &mut Vec<u8>, next: u32, line: &str) -> Result<(), NoRoom> {
        if line == "end" {
            self.next = None;
            return self.begin(text, next);
        }
        self.settings.push_str(line)?;
        Ok(self.settings.push('\n')?)
    }

    // Answers a command. Settings are answered after their last line.
    fn answer(&mut self, text: &mut Vec<u8>, command: Command) -> Result<(), NoRoom> {
        match command {
            Command::Settings(next) => {
                self.next = Some(next);
                self.settings.clear();
                Ok(())
            }
            Command::Numbers { generation, seq } => {
                self.numbers = Some(Numberer::of(generation, seq));
                tell(text, b"numbers")
            }
            Command::Number => tell_next(text, &mut self.numbers),
            Command::Rows => tell_rows(text, self.alloc),
            Command::Event { event, tick } => tell_event(text, &mut self.rs, event, tick),
            Command::State(label) => tell_service(text, &self.rs, &label),
            _ => self.answer_reading(text, command),
        }
    }

    // Answers a query of RS between two events.
    fn answer_reading(&self, text: &mut Vec<u8>, command: Command) -> Result<(), NoRoom> {
        let Some(rs) = &self.rs else {
            return tell(text, NO_SETTINGS);
        };
        match command {
            Command::Next => tell_numbers(text, &[("next ", u64::from(rs.next_generation()))]),
            Command::Due => tell_number(text, "due ", rs.due()),
            Command::Service(index) => tell_state(text, rs.state_of(index)),
            Command::Instance(endpoint) => tell_index(
                text,
                "instance ",
                rs.place_of_instance(endpoint),
            ),
            Command::Publishes(endpoint, key) => tell_may(
                text,
                rs.may_publish(endpoint, &key),
                b"publish",
            ),
            Command::Complains(endpoint, label) => tell_may(
                text,
                rs.may_complain(endpoint, &label),
                b"complain",
            ),
            Command::Connects(endpoint, label) => tell_may(
                text,
                rs.may_connect(endpoint, &label),
                b"connect",
            ),
            _ => tell_numbers(text, &[("key ", rs.next_key() as u64)]),
        }
    }

    // Begins RS anew. If that is refused, the RS from before continues.
    fn begin(&mut self, text: &mut Vec<u8>, next: u32) -> Result<(), NoRoom> {
        let settings = match read_any(self.alloc, self.settings.as_bytes()) {
            Ok(settings) => settings,
            Err(fault) => return tell_settings_fault(text, &fault),
        };
        let count = settings.services().len();
        let slots = settings.slots();
        match Rs::new(self.alloc, settings, next) {
            Ok(rs) => {
                self.rs = Some(rs);
                append_settings(text, count, slots)
            }
            Err(fault) => tell_new_fault(text, fault),
        }
    }
}

fn tell_next(text: &mut Vec<u8>, numbers: &mut Option<Numberer>) -> Result<(), NoRoom> {
    match numbers {
        Some(numbers) => tell_version(text, numbers.next()),
        None => tell(text, b"refused nonumbers"),
    }
}

fn tell_service(text: &mut Vec<u8>, rs: &Option<Rs>, label: &Name) -> Result<(), NoRoom> {
    match rs {
        Some(rs) => tell_state(text, rs.state(label)),
        None => tell(text, NO_SETTINGS),
    }
}

fn tell_may(text: &mut Vec<u8>, may: bool, verb: &[u8]) -> Result<(), NoRoom> {
    let word: &[u8] = if may { b"may " } else { b"may not " };
    append_all(text, &[word, verb, b"\n"])
}

fn tell_event(
    text: &mut Vec<u8>,
    rs: &mut Option<Rs>,
    event: Event,
    tick: u64,
) -> Result<(), NoRoom> {
    match rs {
        Some(rs) => {
            let given_up = rs.gives_up(&event, tick);
            match rs.event(event, tick) {
                Ok(actions) => tell_step(text, &actions, given_up),
                Err(fault) => append_rs_fault(text, fault),
            }
        }
        None => tell(text, NO_SETTINGS),
    }
}

// Appends the actions of an event, and the service that RS gave up by it.
fn tell_step(text: &mut Vec<u8>, actions: &Actions, given_up: Option<usize>) -> Result<(), NoRoom> {
    tell_actions(text, actions)?;
    if given_up.is_none() {
        return Ok(());
    }
    tell_index(text, "gave up ", given_up)
}

// Appends a line for each action of an event, and one for their count.
fn tell_actions(text: &mut Vec<u8>, actions: &Actions) -> Result<(), NoRoom> {
    for i in 0..actions.len() {
        if let Some(action) = actions.get(i) {
            append_action(text, action)?;
        }
    }
    append_action_count(text, actions.len())
}
