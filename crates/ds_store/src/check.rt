//! Judging a Check.

ghost use Rattle.std.specs.Prelude.{◌≡◌, ℕ, ◌<◌, Bool, true, Some, None, IfNone, IfOk, IfErr, OnOk};
ghost use Rattle.ds_machine.specs.Calling.{is_no_max};
ghost use Rattle.ds_store.specs.Cases.{refusal_of_case, refusal_of_showing, IsCheckable};
ghost use Rattle.ds_names.specs.Limits.{last_place};

use ds_machine::Refusal;
use ds_names::limits::{LAST_PLACE, MOST_ITEMS};

/// A Check and what it meets.
#[derive(Clone, Copy)]
pub struct CheckCase {
    /// How many places there are for subscriptions.
    pub places: u32,
    /// The stamp of the subscription's last Subscribe or Check, if its place has one.
    pub last: Option<u64>,
    /// The number of the subscription.
    pub sub: u32,
    /// How many items it asks for.
    pub max: u32,
}

// Returns whether `max` is outside 1 to 256.
pub(crate) fn is_no_max(max: u32) -> bool
    ensures { result ≡ is_no_max max }
{
    max == 0 || max as usize > MOST_ITEMS
}

/// Returns the subscription's stamp before a Check. Refuses as BadSub, TooMany, NotFound, in this order. Only showing
/// something can be refused later.
pub fn stamp_before(case: CheckCase) -> Result<u64, Refusal>
    ensures checkable { IfOk result (IsCheckable case) }
    ensures none { OnOk result ((some : Bool) (stamp : ℕ) → refusal_of_case case some stamp ≡ refusal_of_showing some stamp) }
    ensures refused { IfErr result (λ refusal. (some : Bool) (stamp : ℕ) → refusal_of_case case some stamp ≡ Some refusal) }
{
    if case.sub >= case.places {
        return Err(Refusal::BadSub);
    }
    if is_no_max(case.max) {
        return Err(Refusal::TooMany);
    }
    case.last.ok_or(Refusal::NotFound)
}

/// Refuses to show something if the last stamp is 2^62, as Worn. A Check that shows nothing takes no stamp.
pub fn refusal_of_showing(stamp: u64) -> Option<Refusal>
    ensures value { result ≡ refusal_of_showing true stamp }
    ensures room { IfNone result (stamp < last_place) }
{
    if stamp >= LAST_PLACE {
        Some(Refusal::Worn)
    } else {
        None
    }
}
