//! Judging a Subscribe.

ghost use Rattle.std.specs.Prelude.{◌≡◌, ◌<◌, None, Err, IfOk, IfErr, OnOk};
ghost use Rattle.std.specs.List.{find};
ghost use Rattle.ds_machine.specs.Order.{first_refusal};
ghost use Rattle.ds_machine.specs.Calling.{against_subscribe};
ghost use Rattle.ds_store.specs.Refused.{IsRefusedFor, refusal_of_pattern};
ghost use Rattle.ds_store.specs.Cases.{machine_subscribe};
ghost use Rattle.ds_store.specs.Last.{before_patterns};
ghost use Rattle.ds_names.specs.Limits.{last_place};

use ds_machine::Refusal;
use ds_names::limits::LAST_PLACE;
use ds_pattern::{Filter, PatternFault, Query};
use std::alloc::Global;

/// A Subscribe without its query, and what it meets.
#[derive(Clone, Copy)]
pub struct SubscribeCase {
    /// How many places there are for subscriptions.
    pub places: u32,
    /// Whether its place has a subscription.
    pub taken: bool,
    /// The last stamp.
    pub stamp: u64,
    /// The number of the subscription.
    pub sub: u32,
    /// Whether it may replace another subscription.
    pub overwrite: bool,
}

/// Returns the refusal for a fault of a pattern.
pub(crate) fn refusal_of_pattern(fault: PatternFault) -> Refusal
    ensures { result ≡ refusal_of_pattern fault }
{
    match fault {
        PatternFault::TooLong => Refusal::TooLong,
        PatternFault::BadPattern => Refusal::BadPattern,
        PatternFault::NoRoom => Refusal::NoRoom,
    }
}

/// Compiles the query of a Subscribe. Refuses as BadSub, TooLong, BadPattern, Exists, Worn, in this order. NoRoom is
/// reported in the place of BadPattern, where memory is taken.
pub fn take_up(alloc: Global, case: SubscribeCase, query: &Query) -> Result<Filter, Refusal>
    ensures value { IfOk result (λ filter. filter ≡ query.now) }
    ensures none { OnOk result (first_refusal (against_subscribe (machine_subscribe case query.now)) ≡ None) }
    ensures place { OnOk result (case.sub < case.places) }
    ensures room { OnOk result (case.stamp < last_place) }
    ensures refused { IfErr result (IsRefusedFor (first_refusal (against_subscribe (machine_subscribe case query.now)))) }
    ensures last { result ≡ Err Refusal.NoRoom → find (against_subscribe (machine_subscribe case query.now)) before_patterns ≡ None }
{
    if case.sub >= case.places {
        return Err(Refusal::BadSub);
    }
    let filter = match Filter::read(alloc, query) {
        Ok(filter) => filter,
        Err(fault) => return Err(refusal_of_pattern(fault)),
    };
    if case.taken && !case.overwrite {
        return Err(Refusal::Exists);
    }
    if case.stamp >= LAST_PLACE {
        return Err(Refusal::Worn);
    }
    Ok(filter)
}
