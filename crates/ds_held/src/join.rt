//! Joining with all that another holder has.

ghost use Rattle.std.specs.Prelude.{◌≡◌, ◌≤◌, ◌++◌, map, length, IfErr, OnOk};
ghost use Rattle.ds_held.specs.Held.{change_item, IsSound};
ghost use Rattle.ds_held.specs.Join.{AreMerged, IsJoinStopped, JoinStopsAfter};
ghost use Rattle.ds_held.specs.Kept.{floored};

use crate::held::Held;
use crate::rows::Rows;
use ds_entry::{Change, Floor};
use ds_join::Stop;
use std::alloc::Global;

// Raises the floors of another holder, in order.
fn raise_all(held: &mut Held, other: &[Floor]) -> Result<(), Stop>
    ensures merged { OnOk result (AreMerged held.old (map floored other.now) held.new) }
    ensures stopped { IfErr result (IsJoinStopped held.old (map floored other.now) held.new) }
{
    let mut done = 0;
    for floor in other {
        match held.raise(*floor) {
            Ok(_) => done += 1,
            Err(fault) => return Err(Stop { done, fault }),
        }
    }
    Ok(())
}

// Merges the changes of another holder, in order, after its `before` floors.
fn merge_all(
    alloc: Global,
    held: &mut Held,
    before: usize,
    other: &Rows<Change>,
) -> Result<(), Stop>
    requires few_before { before ≤ 64 }
    requires few { length other.now ≤ 4096 }
    ensures merged { OnOk result (AreMerged held.old (map change_item other.now) held.new) }
    ensures stopped { IfErr result (JoinStopsAfter before held.old (map change_item other.now) held.new) }
{
    let mut done = before;
    for i in 0..other.len() {
        let change = other.at(i);
        match held.merge_copy(alloc, change) {
            Ok(_) => done += 1,
            Err(fault) => return Err(Stop { done, fault }),
        }
    }
    Ok(())
}

// Raises the floors of another holder, and then merges its changes.
pub(crate) fn join_into(
    alloc: Global,
    held: &mut Held,
    floors: &[Floor],
    changes: &Rows<Change>,
) -> Result<(), Stop>
    requires few_floors { length floors.now ≤ 64 }
    requires few { length changes.now ≤ 4096 }
    ensures merged { OnOk result (AreMerged held.old (map floored floors.now ++ map change_item changes.now) held.new) }
    ensures stopped { IfErr result (IsJoinStopped held.old (map floored floors.now ++ map change_item changes.now) held.new) }
{
    match raise_all(held, floors) {
        Ok(()) => merge_all(alloc, held, floors.len(), changes),
        Err(stop) => Err(stop),
    }
}
