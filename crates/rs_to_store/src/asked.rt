//! Commands to a store, for a change and for an action of RS.

ghost use Rattle.std.specs.Prelude.{◌≡◌};
ghost use Rattle.ds_names.specs.Endpoint.{endpoint_of};
ghost use Rattle.ds_entry.specs.Change.{IsBodyInPlace};
ghost use Rattle.rs_core.specs.Action.{IsActionInPlace};
ghost use Rattle.rs_to_store.specs.Asked.{asking_for, command_of};

use ds_entry::{Body, Value};
use ds_machine::Command;
use ds_names::{Endpoint, Key, Version};
use rs_core::Action;

/// Returns the command with which a caller makes a change of its own: for a put a Publish that overwrites, for a
/// tombstone a Delete. It takes no memory.
pub fn asking(caller: Endpoint, key: &Key, version: &Version, body: Body) -> Command
    ensures { result ≡ asking_for caller key.now version.now body }
{
    let (key, version) = (*key, *version);
    match body {
        Body::Put(value) => Command::Publish {
            caller,
            key,
            version,
            value,
            overwrite: true,
        },
        Body::Gone => Command::Delete {
            caller,
            key,
            version,
        },
    }
}

/// Returns the command of an action, with RS's endpoint as its caller: it makes the offered change, or sweeps up to a
/// floor. `None` for a kill, a start and a ping, which don't concern a store.
///
/// It takes no memory, since RS offers labels only.
pub fn command_of(action: &Action) -> Option<Command>
    requires { IsActionInPlace action.now }
    ensures { result ≡ command_of action.now }
{
    match action {
        Action::Offer(change) => Some(asking(
            Endpoint::rs(),
            change.key(),
            &change.version(),
            body_again(change.body()),
        )),
        Action::Sweep(floor) => Some(Command::Sweep {
            caller: Endpoint::rs(),
            owner: floor.owner,
            generation: floor.generation,
        }),
        Action::Kill(_) | Action::Start(_, _) | Action::Ping(_) => None,
    }
}

// Returns a copy of a body that can be copied without memory.
fn body_again(body: &Body) -> Body
    requires { IsBodyInPlace body.now }
    ensures { result ≡ body.now }
{
    match body {
        Body::Put(Value::Label(endpoint)) => Body::Put(Value::Label(*endpoint)),
        Body::Put(Value::U32(number)) => Body::Put(Value::U32(*number)),
        Body::Put(Value::Str(_) | Value::Mem(_)) => unreachable!(),
        Body::Gone => Body::Gone,
    }
}
