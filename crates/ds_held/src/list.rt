//! The judgement of a change, and putting an element at its place in a list.

ghost use Rattle.std.specs.Prelude.{◌≡◌, ◌<◌, ◌≤◌, OnOk, OnErr, length};
ghost use Rattle.ds_held.specs.Kept.{put_at, IsGap, IsPlaceIn};
ghost use Rattle.ds_held.specs.Merge.{AnswersHeld, AnswersNew, AnswersOwn, UnlessVoid};

use crate::rows::Rows;
use ds_entry::Change;
use ds_join::{JoinFault, Merge};
use ds_names::NoRoom;
use std::cmp::Ordering;

// Judges a change of a held key, by the key's owner.
fn judge_own(held: &Change, change: &Change) -> Result<Merge, JoinFault>
    requires key { held.now.key ≡ change.now.key }
    requires owner { held.now.owner ≡ change.now.owner }
    ensures { AnswersOwn held.now change.now result }
{
    let version = change.version();
    match held.version().compare(&version) {
        Ordering::Less => Ok(Merge::Taken),
        Ordering::Greater => Ok(Merge::Stale),
        Ordering::Equal if held.body() == change.body() => Ok(Merge::Known),
        Ordering::Equal => Err(JoinFault::Clash { version }),
    }
}

// Judges a change of a held key.
pub(crate) fn judge(held: &Change, is_void: bool, change: &Change) -> Result<Merge, JoinFault>
    requires { held.now.key ≡ change.now.key }
    ensures { AnswersHeld held.now is_void change.now result }
{
    if held.owner() != change.owner() {
        Err(JoinFault::NotOwner)
    } else if is_void {
        Ok(Merge::Stale)
    } else {
        judge_own(held, change)
    }
}

// Judges a change of a key that isn't held, as if there were memory for it.
pub(crate) fn judge_new(count: usize, most: usize, is_void: bool) -> Result<Merge, JoinFault>
    requires { count ≤ most }
    ensures { UnlessVoid is_void (AnswersNew count most result) result }
{
    if is_void {
        Ok(Merge::Stale)
    } else if count >= most {
        Err(JoinFault::Full)
    } else {
        Ok(Merge::Taken)
    }
}

// Puts an element at its place in a list. Replacing another one allocates nothing.
#[inline(always)]
pub(crate) fn put<T: Drop>(
    list: &mut Vec<T>,
    place: Result<usize, usize>,
    element: T,
) -> Result<(), NoRoom>
    requires { IsPlaceIn place (length list.old.items) }
    ensures put { OnOk result (list.new.items ≡ put_at list.old.items place element) }
    ensures same { OnErr result (list.new.items ≡ list.old.items) }
    ensures gap { OnErr result (IsGap place) }
{
    match place {
        Ok(i) => {
            list[i] = element;
            Ok(())
        }
        Err(i) => match list.insert(i, element) {
            Ok(()) => Ok(()),
            Err(_) => Err(NoRoom),
        },
    }
}

// Puts an element at its place in a list in slots. Replacing another one allocates nothing.
#[inline(always)]
pub(crate) fn put_row<T: Drop>(
    rows: &mut Rows<T>,
    place: Result<usize, usize>,
    element: T,
) -> Result<(), NoRoom>
    requires place { IsPlaceIn place (length rows.old) }
    requires few { length rows.old < 65536 }
    ensures put { OnOk result (rows.new ≡ put_at rows.old place element) }
    ensures same { OnErr result (rows.new ≡ rows.old) }
    ensures gap { OnErr result (IsGap place) }
{
    match place {
        Ok(i) => {
            rows.set(i, element);
            Ok(())
        }
        Err(i) => rows.insert(i, element),
    }
}
