//! Text for what scripts have no words for.

use crate::words::{tell, tell_numbers};
use ds_names::{NoRoom, Version};
use rs_core::{NewFault, Running, SeqSpent, State};
use rs_settings::SettingsFault;
use script_answers::append_settings_fault;

/// Appends the state of a service.
pub(crate) fn tell_state(text: &mut Vec<u8>, state: Option<State>) -> Result<(), NoRoom> {
    match state {
        Some(State::Down) => tell(text, b"down"),
        Some(State::Up(running)) => tell_running(text, &running),
        Some(State::Waiting(pause)) => tell_numbers(
            text,
            &[
                ("waiting until ", pause.until),
                (" failures ", u64::from(pause.failures)),
            ],
        ),
        Some(State::GaveUp) => tell(text, b"gaveup"),
        None => tell(text, b"unknown"),
    }
}

fn tell_running(text: &mut Vec<u8>, running: &Running) -> Result<(), NoRoom> {
    let generation = running.endpoint.generation().number();
    tell_numbers(
        text,
        &[
            ("up ", u64::from(generation)),
            ("/", u64::from(running.endpoint.slot())),
            (" beat ", running.beat),
            (" ping ", running.ping),
            (" failures ", u64::from(running.failures)),
        ],
    )
}

/// Appends a number with its generation.
pub(crate) fn tell_version(
    text: &mut Vec<u8>,
    given: Result<Version, SeqSpent>,
) -> Result<(), NoRoom> {
    match given {
        Ok(Version { epoch, seq }) => tell_numbers(
            text,
            &[
                ("number ", u64::from(epoch.number())),
                (".", u64::from(seq)),
            ],
        ),
        Err(SeqSpent) => tell(text, b"refused seqspent"),
    }
}

/// Appends why RS can't begin.
pub(crate) fn tell_new_fault(text: &mut Vec<u8>, fault: NewFault) -> Result<(), NoRoom> {
    match fault {
        NewFault::OutOfRange => tell(text, b"refused outofrange"),
        NewFault::NoRoom => tell(text, b"refused noroom"),
    }
}

/// Appends what is wrong with settings, and the index of the service in a line of its own.
pub(crate) fn tell_settings_fault(text: &mut Vec<u8>, fault: &SettingsFault) -> Result<(), NoRoom> {
    append_settings_fault(text, fault.cause)?;
    match fault.index {
        Some(index) => tell_numbers(text, &[("service ", index as u64)]),
        None => Ok(()),
    }
}
