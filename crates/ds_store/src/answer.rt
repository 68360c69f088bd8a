//! The reply if a cause applies to a command.

ghost use Rattle.std.specs.Prelude.{◌≡◌, Some};
ghost use Rattle.ds_entry.specs.declared.item.Item.{Item};
ghost use Rattle.ds_machine.specs.Machine.{answer_for, sweep_answer};
ghost use Rattle.ds_machine.specs.Merging.{Course, item_judged};
ghost use Rattle.ds_store.specs.Passed.{passed_as, item_passed};

use ds_join::Merge;
use ds_machine::{Cause, Refusal, Reply};

/// Returns the reply if a cause applies to a Publish or a Delete: Known for a repeat, else Refused by the cause.
pub fn answer_to(cause: Cause) -> Reply
    ensures { result ≡ answer_for cause }
{
    match cause {
        Cause::Known => Reply::Known,
        Cause::Refused(refusal) => Reply::Refused(refusal),
    }
}

/// Returns the reply if a cause applies to a Sweep: Swept with nothing changed for a floor not above the held one, else
/// Refused by the cause.
pub fn sweep_answer(cause: Cause) -> Reply
    ensures { result ≡ sweep_answer cause }
{
    match cause {
        Cause::Known | Cause::Refused(Refusal::Stale) => Reply::Swept { count: 0, owed: 0 },
        Cause::Refused(refusal) => Reply::Refused(refusal),
    }
}

/// Returns what becomes of an item of a Merge that a cause applies to: Known and Stale are passed over, any other cause
/// stops the Merge.
pub fn passed_as(cause: Cause) -> Result<Merge, Refusal>
    ensures value { result ≡ passed_as cause }
    ensures course { (k : Course) (i : Item) → item_judged k i (Some cause) ≡ item_passed k i result }
{
    match cause {
        Cause::Known => Ok(Merge::Known),
        Cause::Refused(Refusal::Stale) => Ok(Merge::Stale),
        Cause::Refused(refusal) => Err(refusal),
    }
}
