//! How labels follow RS.

ghost use Rattle.std.specs.Prelude.{◌≡◌};
ghost use Rattle.rs_core.specs.Late.{endpoint_in_force, in_force};
ghost use Rattle.rs_core.specs.State.{state_at};
ghost use Rattle.supervisor.specs.Following.{LabelsFollow, is_note};

use ds_names::Endpoint;
use process_keeper::{Input, Keeper};
use rs_core::{Rs, State};

/// Has each label follow RS: an instance that RS starts is pending, and one that RS stops gets the deadline.
pub fn follow(keeper: &mut Keeper, rs: &Rs, deadline: u64)
    ensures labels { LabelsFollow rs.now deadline keeper.old.labels.items keeper.new.labels.items }
    ensures next { keeper.new.next ≡ keeper.old.next }
    ensures file { keeper.new.file ≡ keeper.old.file }
{
    for k in 0..keeper.len() {
        keeper.follow(k, generation_at(rs, k), deadline);
    }
}

// Returns the generation of the service's instance that RS counts as up.
fn generation_at(rs: &Rs, place: usize) -> Option<u64>
    ensures { result ≡ in_force (state_at rs.now place) }
{
    match endpoint_at(rs, place) {
        Some(endpoint) => Some(u64::from(endpoint.generation().number())),
        None => None,
    }
}

/// Returns the endpoint of the service's instance that RS counts as up.
pub fn endpoint_at(rs: &Rs, place: usize) -> Option<Endpoint>
    ensures { result ≡ endpoint_in_force (state_at rs.now place) }
{
    match rs.state_of(place) {
        Some(state) => endpoint_of(&state),
        None => None,
    }
}

fn endpoint_of(state: &State) -> Option<Endpoint>
    ensures { result ≡ endpoint_in_force state.now }
{
    match state {
        State::Up(running) => Some(running.endpoint),
        State::Down | State::Waiting(_) | State::GaveUp => None,
    }
}

/// Returns whether the input is for a caller to note. Starts, stops and reports are RS's.
pub fn is_note(input: &Input) -> bool
    ensures { result ≡ is_note input.now }
{
    !matches!(
        input,
        Input::Started(_) | Input::Cancelled | Input::Stopped(_) | Input::Reported(_)
    )
}
