//! What an event calls for, by the state of the service that it is about.

ghost use Rattle.std.specs.Prelude.{◌≡◌};
ghost use Rattle.rs_core.specs.Table.{on_up, on_stop, on_refresh, on_restart, on_label, on_death};

use crate::event::Event;
use crate::fault::RsFault;
use crate::state::State;

/// What is done to a service.
#[derive(Clone, Copy)]
pub(crate) enum Deed {
    /// Start it with no failures.
    Begin,
    /// Start it with the failures that it has.
    Resume,
    /// Stop its instance.
    Halt,
    /// Stop its instance and start another at once, with the failures that it has.
    Replace,
    /// Handle the failure of its instance. True if the process may be left and has to be killed.
    Lose(bool),
    /// End its wait.
    Forget,
    /// Note a heartbeat.
    Hear,
    /// Ping its instance.
    Ping,
}

/// A deed, and the index in the settings of the service that it is done to.
#[derive(Clone, Copy)]
pub(crate) struct Task {
    pub place: usize,
    pub deed: Deed,
}

fn on_up(state: &State) -> Result<Deed, RsFault>
    ensures { result ≡ on_up state.now }
{
    match state {
        State::Down | State::GaveUp => Ok(Deed::Begin),
        State::Up(_) | State::Waiting(_) => Err(RsFault::AlreadyUp),
    }
}

fn on_stop(state: &State) -> Result<Deed, RsFault>
    ensures { result ≡ on_stop state.now }
{
    match state {
        State::Up(_) => Ok(Deed::Halt),
        State::Waiting(_) => Ok(Deed::Forget),
        State::Down | State::GaveUp => Err(RsFault::NotUp),
    }
}

fn on_refresh(state: &State) -> Result<Deed, RsFault>
    ensures { result ≡ on_refresh state.now }
{
    match state {
        State::Up(_) => Ok(Deed::Replace),
        State::Waiting(_) | State::Down | State::GaveUp => Err(RsFault::NotUp),
    }
}

fn on_restart(state: &State) -> Result<Deed, RsFault>
    ensures { result ≡ on_restart state.now }
{
    match state {
        State::Waiting(_) => Ok(Deed::Resume),
        State::GaveUp => Ok(Deed::Begin),
        State::Up(_) => Err(RsFault::AlreadyUp),
        State::Down => Err(RsFault::NotUp),
    }
}

// Returns what an event with a label calls for.
pub(crate) fn on_label(event: &Event, state: &State) -> Result<Deed, RsFault>
    ensures { result ≡ on_label event.now state.now }
{
    match event {
        Event::Up(_) => on_up(state),
        Event::Stop(_) => on_stop(state),
        Event::Refresh(_) => on_refresh(state),
        _ => on_restart(state),
    }
}

// Returns what a death of this cause calls for.
pub(crate) fn on_death(cause: u64) -> Deed
    ensures { result ≡ on_death cause }
{
    if cause == 6 {
        Deed::Replace
    } else {
        Deed::Lose(4 <= cause)
    }
}
