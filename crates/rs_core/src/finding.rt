//! Which service an event is about.

ghost use Rattle.std.specs.Prelude.{◌≡◌, ◌<◌, ◌*◌, ◌-◌, nat_le, length, IfSome};
ghost use Rattle.rs_core.specs.Finding.{when_up, when_waiting, is_sought, first_sought};
ghost use Rattle.ds_names.specs.Endpoint.{is_same_endpoint};

use crate::state::State;
use ds_names::{Endpoint, Name};
use rs_settings::{Service, Services};

/// How a service is looked up: by label, by endpoint, or by what is due at a tick.
#[derive(Clone, Copy)]
pub(crate) enum Sought {
    Label(Name),
    Instance(Endpoint),
    /// Its heartbeat is missed.
    Missed(u64),
    /// A ping is due.
    Silent(u64),
    /// Its wait is over.
    Rested(u64),
}

fn is_same_endpoint(a: Endpoint, b: Endpoint) -> bool
    ensures { result ≡ is_same_endpoint a b }
{
    a.generation().number() == b.generation().number() && a.slot() == b.slot()
}

fn has_endpoint(state: &State, endpoint: Endpoint) -> bool
    ensures { result ≡ when_up (λ r. is_same_endpoint r.endpoint endpoint) state.now }
{
    match state {
        State::Up(running) => is_same_endpoint(running.endpoint, endpoint),
        _ => false,
    }
}

fn is_missed(period: u32, state: &State, tick: u64) -> bool
    ensures { result ≡ when_up (λ r. nat_le (2 * period) (tick - r.beat)) state.now }
{
    match state {
        State::Up(running) => 2 * u64::from(period) <= tick.saturating_sub(running.beat),
        _ => false,
    }
}

fn is_silent(period: u32, state: &State, tick: u64) -> bool
    ensures { result ≡ when_up (λ r. nat_le period (tick - r.ping)) state.now }
{
    match state {
        State::Up(running) => u64::from(period) <= tick.saturating_sub(running.ping),
        _ => false,
    }
}

fn is_rested(state: &State, tick: u64) -> bool
    ensures { result ≡ when_waiting (λ p. nat_le p.until tick) state.now }
{
    match state {
        State::Waiting(pause) => pause.until <= tick,
        _ => false,
    }
}

fn is_sought(what: &Sought, service: &Service, state: &State) -> bool
    ensures { result ≡ is_sought what.now service.now state.now }
{
    match what {
        Sought::Label(label) => service.label == *label,
        Sought::Instance(endpoint) => has_endpoint(state, *endpoint),
        Sought::Missed(tick) => 0 < service.period && is_missed(service.period, state, *tick),
        Sought::Silent(tick) => 0 < service.period && is_silent(service.period, state, *tick),
        Sought::Rested(tick) => is_rested(state, *tick),
    }
}

// Returns the first matching service.
pub(crate) fn place_of(what: &Sought, services: &Services, states: &[State]) -> Option<usize>
    requires { length states.now ≡ length services.now }
    ensures value { result ≡ first_sought what.now 0 services.now states.now }
    ensures within { IfSome result (λ i. i < length states.now) }
{
    for (i, state) in states.iter().enumerate() {
        let Some(service) = services.get(i) else {
            unreachable!()
        };
        if is_sought(what, service, state) {
            return Some(i);
        }
    }
    None
}
