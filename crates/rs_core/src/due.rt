//! The first tick at which something is due.

ghost use Rattle.std.specs.Prelude.{◌≡◌, ℕ, ◌<◌, ◌≤◌, ◌-◌, ◌^◌, ◌||◌, nat_le, length};
ghost use Rattle.rs_core.specs.Reading.{any_due, is_due, is_from, IsFrom};

use crate::state::State;
use rs_settings::{Service, Services};

// Returns the earlier of two ticks, either of which may be missing.
fn earlier(a: Option<u64>, b: Option<u64>) -> Option<u64>
    ensures { (tick : ℕ) → is_from result tick ≡ (is_from a tick || is_from b tick) }
{
    match (a, b) {
        (Some(a), Some(b)) => Some(if a <= b { a } else { b }),
        (Some(a), None) => Some(a),
        (None, b) => b,
    }
}

// Returns the tick that is `wait` ticks after another one, or `None` if it is too large.
fn later(tick: u64, wait: u64) -> Option<u64>
    requires { 0 < wait }
    ensures { IsFrom (λ t. nat_le wait (t - tick)) result }
{
    tick.checked_add(wait)
}

// Returns the first tick at which something is due for a service.
fn due_of(service: &Service, state: &State) -> Option<u64>
    ensures { IsFrom (λ tick. is_due tick service.now state.now) result }
{
    match state {
        State::Up(running) => {
            if service.period == 0 {
                return None;
            }
            let period = u64::from(service.period);
            earlier(later(running.beat, 2 * period), later(running.ping, period))
        }
        State::Waiting(pause) => Some(pause.until),
        State::Down | State::GaveUp => None,
    }
}

/// Returns the first tick at which something is due for any service.
pub(crate) fn first_due(services: &Services, states: &[State]) -> Option<u64>
    requires { length states.now ≡ length services.now }
    ensures { IsFrom (λ tick. any_due tick services.now states.now) result }
{
    let mut first = None;
    for (i, state) in states.iter().enumerate() {
        let Some(service) = services.get(i) else {
            unreachable!()
        };
        first = earlier(first, due_of(service, state));
    }
    first
}
