//! Judging a change.

ghost use Rattle.std.specs.Prelude.{◌≡◌, None, IfNone};
ghost use Rattle.ds_names.specs.declared.key.Key.{Key};
ghost use Rattle.ds_entry.specs.Change.{change_of};
ghost use Rattle.ds_machine.specs.Order.{first_cause};
ghost use Rattle.ds_machine.specs.Standing.{against_change, IsFree};
ghost use Rattle.ds_store.specs.Standing.{machine_standing, cause_by_version, cause_by_room};

use crate::standing::Standing;
use ds_entry::{Body, Change};
use ds_machine::{Cause, Refusal};
use ds_names::limits::LAST_PLACE;
use ds_names::{Name, Version};
use std::cmp::Ordering;

// Returns the first cause against the change by its key's held change and by floors.
#[inline(always)]
pub(crate) fn cause_by_version(
    standing: &Standing<'_>,
    owner: &Name,
    version: Version,
    body: &Body,
) -> Option<Cause>
    ensures { (key : Key) → result ≡ cause_by_version (machine_standing standing.now) (change_of key owner.now version body.now) }
{
    let Some(held) = standing.held else {
        return if standing.void {
            Some(Cause::Refused(Refusal::Stale))
        } else {
            None
        };
    };
    if held.owner() != owner {
        return Some(Cause::Refused(Refusal::NotOwner));
    }
    match held.version().compare(&version) {
        Ordering::Equal if held.body() != body => Some(Cause::Refused(Refusal::Clash { version })),
        Ordering::Greater => Some(Cause::Refused(Refusal::Stale)),
        Ordering::Less | Ordering::Equal if standing.void => Some(Cause::Refused(Refusal::Stale)),
        Ordering::Equal => Some(Cause::Known),
        Ordering::Less => None,
    }
}

// Returns the first cause by the limits: all keys used, or no position left.
pub(crate) fn cause_by_room(standing: &Standing<'_>) -> Option<Cause>
    ensures { result ≡ cause_by_room (machine_standing standing.now) }
{
    if standing.held.is_none() && standing.count >= standing.most {
        return Some(Cause::Refused(Refusal::Full));
    }
    if standing.position >= LAST_PLACE {
        return Some(Cause::Refused(Refusal::Worn));
    }
    None
}

/// Returns the first cause against a change of another holder: NotOwner, Clash, Stale (a greater version is held, or a
/// floor makes it void), Known, Full, Worn. Without a cause, the change isn't void, its key has room or its held change
/// yields, and the position is below 2^62.
pub fn cause_of_change(standing: &Standing<'_>, change: &Change) -> Option<Cause>
    ensures first { result ≡ first_cause (Some change.now.version) (against_change (machine_standing standing.now) change.now) }
    ensures free { IfNone result (IsFree (machine_standing standing.now) change.now) }
{
    let version = change.version();
    if let Some(cause) = cause_by_version(standing, change.owner(), version, change.body()) {
        return Some(cause);
    }
    cause_by_room(standing)
}
