//! The state of a label: its driver's endpoint now, if it has a driver.

ghost use Rattle.std.specs.Prelude.{◌≡◌};
ghost use Rattle.driver_tables.specs.Label.{newer, is_same_state, is_old};

use ds_names::{Endpoint, Generation};

pub(crate) fn is_same_state(one: &Option<Endpoint>, other: &Option<Endpoint>) -> bool
    ensures { result ≡ is_same_state one.now other.now }
{
    match (one, other) {
        (None, None) => true,
        (Some(one), Some(other)) => *one == *other,
        _ => false,
    }
}

// Returns whether a state is old: its generation is below the newest, or is the newest and the state isn't the one now.
pub(crate) fn is_old(
    newest: Option<Generation>,
    now: &Option<Endpoint>,
    state: &Option<Endpoint>,
) -> bool
    ensures { result ≡ is_old newest now.now state.now }
{
    let Some(newest) = newest else {
        return false;
    };
    let Some(endpoint) = state else {
        return false;
    };
    let same = is_same_state(now, state);
    let generation = endpoint.generation().number();
    generation < newest.number() || (generation == newest.number() && !same)
}

// Returns the greater of a generation and a state's generation.
pub(crate) fn newer(newest: Option<Generation>, state: &Option<Endpoint>) -> Option<Generation>
    ensures { result ≡ newer newest state.now }
{
    let Some(endpoint) = state else {
        return newest;
    };
    match newest {
        Some(newest) if newest.number() >= endpoint.generation().number() => Some(newest),
        _ => Some(endpoint.generation()),
    }
}
