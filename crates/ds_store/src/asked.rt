//! Judging a Publish and a Delete.

ghost use Rattle.std.specs.Prelude.{◌≡◌, ◌<◌, ◌≤◌, ◌^◌, ℕ, List, Option, Some, None, IfNone};
ghost use Rattle.std.specs.Option.{option_copied, unwrap_or};
ghost use Rattle.std.specs.List.{find};
ghost use Rattle.ds_entry.specs.declared.body.Body.{Body};
ghost use Rattle.ds_machine.specs.Order.{first_cause};
ghost use Rattle.ds_machine.specs.Asking.{published, deleted, is_label_change, is_callers_version, is_live, change_asked};
ghost use Rattle.ds_store.specs.Asked.{request_of, causes_against, cause_by_need, by_held, is_void_under, NamesRs};
ghost use Rattle.ds_store.specs.Standing.{machine_standing};
ghost use Rattle.ds_names.specs.Kind.{is_label};
ghost use Rattle.ds_names.specs.Endpoint.{is_rs};
ghost use Rattle.ds_names.specs.Name.{IsName, rs_name};
ghost use Rattle.ds_entry.specs.Change.{IsChange, IsBody, is_of_kind, is_label_body};
ghost use Rattle.ds_machine.specs.Standing.{IsFree};

use crate::change::{cause_by_room, cause_by_version};
use crate::standing::Standing;
use ds_entry::{Body, Change};
use ds_machine::{Cause, Refusal};
use ds_names::limits::LAST_SEQ;
use ds_names::{Endpoint, Generation, Key, Name, Version};

/// What the entry has to be before the change: not live, anything, or live.
#[derive(Clone, Copy)]
pub enum Need {
    NotLive,
    Any,
    Live,
}

/// A Publish or a Delete without the body of its change.
#[derive(Clone, Copy)]
pub struct Asked {
    pub caller: Endpoint,
    pub key: Key,
    pub version: Version,
    pub need: Need,
}

/// Returns what a Publish asks for: a change that, without `overwrite`, needs an entry that isn't live.
pub fn published(caller: Endpoint, key: Key, version: Version, overwrite: bool) -> Asked
    ensures { request_of result ≡ published caller key version overwrite }
{
    Asked {
        caller,
        key,
        version,
        need: if overwrite { Need::Any } else { Need::NotLive },
    }
}

/// Returns what a Delete asks for: a change that needs a live entry.
pub fn deleted(caller: Endpoint, key: Key, version: Version) -> Asked
    ensures { request_of result ≡ deleted caller key version }
{
    Asked {
        caller,
        key,
        version,
        need: Need::Live,
    }
}

/// Returns whether the caller's floor, if there is one, makes the change asked for void.
pub fn is_void_under(floor: Option<Generation>, asked: &Asked) -> bool
    ensures { (caller : List ℕ) (body : Body) → result ≡ is_void_under floor (change_asked (Some caller) (request_of asked.now) body) }
{
    match floor {
        Some(floor) => {
            !asked.key.kind.is_label() && asked.version.epoch.number() <= floor.number()
        }
        None => false,
    }
}

// Returns the owner of what a caller asks for: the caller's name, or RS if it has none.
fn owner_of(caller: &Option<Name>) -> Name
    ensures value { result ≡ unwrap_or caller.now rs_name }
    ensures name { IsName result }
{
    let owner = match caller {
        Some(name) => *name,
        None => Name::rs(),
    };
    let _bytes = owner.bytes();
    owner
}

/// Returns the change asked for, owned by the caller. The precondition follows from judging that no cause applies to
/// it, so nothing is judged twice.
pub fn change_asked(asked: &Asked, body: Body, caller: Option<Name>) -> Change
    requires { IsChange (change_asked caller (request_of asked.now) body) }
    ensures { result ≡ change_asked caller (request_of asked.now) body }
{
    Change::from_parts(asked.key, owner_of(&caller), asked.version, body)
}

// Returns whether the change asked for keeps the rules of labels.
fn is_label_change(asked: &Asked, body: &Body) -> bool
    ensures { result ≡ is_label_change (request_of asked.now) body.now }
{
    let epoch = asked.version.epoch.number();
    !asked.key.name.is_rs() && epoch != 0 && body.fits_label(&asked.version)
}

// Returns whether the version is one that the caller may use.
fn is_callers_version(asked: &Asked) -> bool
    ensures { result ≡ is_callers_version (request_of asked.now) }
{
    asked.version.epoch == asked.caller.generation() && asked.version.seq < LAST_SEQ
}

// Returns whether the held change leaves a value.
fn is_live(held: Option<&Change>) -> bool
    ensures { result ≡ is_live (option_copied held.entry) }
{
    match held {
        Some(change) => change.body().value().is_some(),
        None => false,
    }
}

// Returns the cause if the entry isn't what the change needs.
fn cause_by_need(need: Need, is_live: bool) -> Option<Cause>
    ensures { result ≡ cause_by_need need is_live }
{
    match need {
        Need::NotLive if is_live => Some(Cause::Refused(Refusal::Exists)),
        Need::Live if !is_live => Some(Cause::Refused(Refusal::NotFound)),
        _ => None,
    }
}

// Returns the first cause by what is held, for a change owned by `owner`.
fn cause_by_held(standing: &Standing<'_>, owner: &Name, asked: &Asked, body: &Body) -> Option<Cause>
    ensures { result ≡ find (causes_against standing.now (Some owner.now) asked.now body.now) (by_held asked.now.version) }
{
    if let Some(cause) = cause_by_version(standing, owner, asked.version, body) {
        return Some(cause);
    }
    if let Some(cause) = cause_by_need(asked.need, is_live(standing.held)) {
        return Some(cause);
    }
    cause_by_room(standing)
}

// Returns the first cause by the command, by its caller, and by what is held.
fn first_cause_of(
    standing: &Standing<'_>,
    caller: Option<Name>,
    asked: &Asked,
    body: &Body,
) -> Option<Cause>
    ensures first { result ≡ first_cause (Some asked.now.version) (causes_against standing.now caller asked.now body.now) }
    ensures valid { IsBody body.now }
{
    let is_label = asked.key.kind.is_label();
    if !body.is_of_kind(asked.key.kind) {
        return Some(Cause::Refused(Refusal::BadKind));
    }
    if is_label && !is_label_change(asked, body) {
        return Some(Cause::Refused(Refusal::BadLabel));
    }
    if !is_label && !is_callers_version(asked) {
        return Some(Cause::Refused(Refusal::BadVersion));
    }
    let Some(owner) = caller else {
        return Some(Cause::Refused(Refusal::NoCaller));
    };
    if is_label && !asked.caller.is_rs() {
        return Some(Cause::Refused(Refusal::NotAllowed));
    }
    cause_by_held(standing, &owner, asked, body)
}

// For the prover alone: the parts of what the caller asks for are in their ranges, as their types guarantee.
fn ranges_proof(asked: &Asked, caller: &Option<Name>)
    ensures name { IsName asked.now.key.name }
    ensures owner { IsName (unwrap_or caller.now rs_name) }
    ensures epoch { asked.now.version.epoch ≤ 2097151 }
    ensures seq { asked.now.version.seq < 2 ^ 32 }
{
    let _name = asked.key.name.bytes();
    let _owner = owner_of(caller);
    let _epoch = asked.version.epoch.number();
    let _seq = asked.version.seq;
}

/// Returns the first cause against what a caller of this name asks for: BadKind, BadLabel, BadVersion, NoCaller,
/// NotAllowed; then, by what is held, NotOwner, Clash, Stale, Known, Exists, NotFound, Full, Worn. Without a cause, the
/// change is valid and isn't void, its key has room or its held change yields, and the position is below 2^62.
pub fn cause_of_asked(
    standing: &Standing<'_>,
    caller: Option<Name>,
    asked: &Asked,
    body: &Body,
) -> Option<Cause>
    ensures first { result ≡ first_cause (Some asked.now.version) (causes_against standing.now caller asked.now body.now) }
    ensures free { IfNone result (IsFree (machine_standing standing.now) (change_asked caller (request_of asked.now) body.now)) }
    ensures made { IfNone result (NamesRs caller asked.now.caller → IsChange (change_asked caller (request_of asked.now) body.now)) }
{
    ranges_proof(asked, &caller);
    first_cause_of(standing, caller, asked, body)
}
