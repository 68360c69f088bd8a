//! Putting marks at their places, with a change or a floor that is to be taken.

ghost use Rattle.std.specs.Prelude.{◌≡◌, ◌<◌, ◌≤◌, Ok, Err, None, length, slice_set, vec_len, vec_capacity, IfOk, OnOk, OnErr};
ghost use Rattle.std.specs.List.{insert};
ghost use Rattle.ds_entry.specs.Change.{IsChange};
ghost use Rattle.ds_join.specs.declared.merge.Merge.TheVariants.{Taken};
ghost use Rattle.ds_held.specs.Held.{held_changes, held_floors, held_for, floor_for, IsSound};
ghost use Rattle.ds_held.specs.Kept.{left_by_floor, marks_left, put_at, puts_void_by, IsFloorPlace, IsGap, IsPlace};
ghost use Rattle.ds_held.specs.Merge.{after_merge, MergeAnswer};
ghost use Rattle.ds_held.specs.Raise.{after_raise, RaiseAnswer};
ghost use Rattle.ds_index.specs.Beside.{IsBeside, IsBesideFloors};
ghost use Rattle.ds_index.specs.Room.{FitsAt, HasRoomAt};

use ds_entry::{Change, Floor};
use ds_held::{Held, Rows};
use ds_names::NoRoom;

// Reserves memory for a floor's mark at a place.
fn make_room<M>(marks: &mut Vec<M>, place: Result<usize, usize>) -> Result<(), NoRoom>
    ensures items { marks.new.items ≡ marks.old.items }
    ensures room { OnOk result (HasRoomAt place (vec_len marks.new) (vec_capacity marks.new)) }
    ensures gap { OnErr result (IsGap place) }
{
    if place.is_err() {
        marks.reserve(1)?;
    }
    Ok(())
}

// Puts a floor's mark at its place, for which memory is reserved.
fn put_mark<M: Drop>(marks: &mut Vec<M>, place: Result<usize, usize>, mark: M)
    requires { FitsAt place (vec_len marks.old) (vec_capacity marks.old) }
    ensures { marks.new.items ≡ put_at marks.old.items place mark }
{
    match place {
        Ok(i) => marks[i] = mark,
        Err(i) => {
            let _ = marks.insert(i, mark);
        }
    }
}

// Replaces the mark of the floor at an index.
pub(super) fn set_at<M: Drop>(marks: &mut Vec<M>, index: usize, mark: M)
    ensures { marks.new.items ≡ slice_set marks.old.items index mark }
{
    if index < marks.len() {
        marks[index] = mark;
    }
}

// Replaces the mark of the change at an index.
pub(super) fn set_row<M: Drop>(marks: &mut Rows<M>, index: usize, mark: M)
    ensures { marks.new ≡ slice_set marks.old index mark }
{
    if index < marks.len() {
        marks.set(index, mark);
    }
}

// For the prover alone: there are less than 65,536 marks.
fn few_marks_proof<M>(held: &Held, marks: &Rows<M>)
    requires { IsBeside held.now marks.now }
    ensures { length marks.now < 65536 }
{
    let _len = held.len();
    let _most = held.limits().keys();
}

// Inserts the mark of a new key at an index.
fn insert_mark<M: Drop>(
    held: &Held,
    marks: &mut Rows<M>,
    index: usize,
    mark: M,
) -> Result<(), NoRoom>
    requires beside { IsBeside held.now marks.old }
    requires within { index ≤ length marks.old }
    ensures inserted { OnOk result (marks.new ≡ insert marks.old index mark) }
    ensures same { OnErr result (marks.new ≡ marks.old) }
{
    few_marks_proof(held, marks);
    marks.insert(index, mark)
}

// Puts a change of a held key that is to be taken, and its mark, at their index.
#[inline(always)]
fn put_over<M: Drop>(
    held: &mut Held,
    marks: &mut Rows<M>,
    index: usize,
    change: Change,
    mark: M,
) -> Result<(), NoRoom>
    requires beside { IsBeside held.old marks.old }
    requires place { IsPlace (held_changes held.old) change.key (Ok index) }
    requires taken { MergeAnswer held.old change (Ok Taken) }
    ensures after { OnOk result (held.new ≡ after_merge held.old change (Ok Taken)) }
    ensures list { OnOk result (held_changes held.new ≡ slice_set (held_changes held.old) index change) }
    ensures marks { OnOk result (marks.new ≡ slice_set marks.old index mark) }
    ensures same { OnErr result (held.new ≡ held.old) }
    ensures same_marks { OnErr result (marks.new ≡ marks.old) }
    ensures new { OnErr result (held_for held.old change.key ≡ None) }
    ensures sound { IsSound held.new }
    ensures change { IsChange change }
{
    held.put(Ok(index), change)?;
    set_row(marks, index, mark);
    Ok(())
}

// Inserts a change of a new key that is to be taken, and its mark, at their index. If memory runs out for the change,
// the mark is removed again.
fn put_new<M: Drop>(
    held: &mut Held,
    marks: &mut Rows<M>,
    index: usize,
    change: Change,
    mark: M,
) -> Result<(), NoRoom>
    requires beside { IsBeside held.old marks.old }
    requires place { IsPlace (held_changes held.old) change.key (Err index) }
    requires taken { MergeAnswer held.old change (Ok Taken) }
    ensures after { OnOk result (held.new ≡ after_merge held.old change (Ok Taken)) }
    ensures list { OnOk result (held_changes held.new ≡ insert (held_changes held.old) index change) }
    ensures marks { OnOk result (marks.new ≡ insert marks.old index mark) }
    ensures same { OnErr result (held.new ≡ held.old) }
    ensures same_marks { OnErr result (marks.new ≡ marks.old) }
    ensures new { OnErr result (held_for held.old change.key ≡ None) }
    ensures sound { IsSound held.new }
    ensures change { IsChange change }
{
    let _key = change.key();
    insert_mark(held, marks, index, mark)?;
    let put = held.put(Err(index), change);
    if put.is_err() {
        marks.remove(index);
    }
    put
}

// Puts a change that is to be taken, and its mark, at their place. If memory runs out, neither is put.
#[inline(always)]
pub(super) fn put_marked<M: Drop>(
    held: &mut Held,
    marks: &mut Rows<M>,
    place: Result<usize, usize>,
    change: Change,
    mark: M,
) -> Result<(), NoRoom>
    requires beside { IsBeside held.old marks.old }
    requires place { IsPlace (held_changes held.old) change.key place }
    requires taken { MergeAnswer held.old change (Ok Taken) }
    ensures after { OnOk result (held.new ≡ after_merge held.old change (Ok Taken)) }
    ensures list { OnOk result (held_changes held.new ≡ put_at (held_changes held.old) place change) }
    ensures marks { OnOk result (marks.new ≡ put_at marks.old place mark) }
    ensures same { OnErr result (held.new ≡ held.old) }
    ensures same_marks { OnErr result (marks.new ≡ marks.old) }
    ensures new { OnErr result (held_for held.old change.key ≡ None) }
    ensures sound { IsSound held.new }
    ensures change { IsChange change }
{
    match place {
        Ok(index) => put_over(held, marks, index, change, mark),
        Err(index) => put_new(held, marks, index, change, mark),
    }
}

// Puts a floor that is to be taken, and its mark, at their place. It drops what the floor voids, with the marks, and
// returns how many puts it dropped.
pub(super) fn raise_marked<M: Drop>(
    held: &mut Held,
    marks: &mut Rows<M>,
    floor_marks: &mut Vec<M>,
    place: Result<usize, usize>,
    floor: Floor,
    mark: M,
) -> Result<usize, NoRoom>
    requires beside { IsBeside held.old marks.old }
    requires floors { IsBesideFloors held.old floor_marks.old.items }
    requires place { IsFloorPlace (held_floors held.old) floor.owner place }
    requires taken { RaiseAnswer held.old floor (Ok Taken) }
    ensures after { OnOk result (held.new ≡ after_raise held.old floor (Ok Taken)) }
    ensures list { OnOk result (held_changes held.new ≡ left_by_floor floor (held_changes held.old)) }
    ensures marks { OnOk result (marks.new ≡ marks_left floor (held_changes held.old) marks.old) }
    ensures floor_marks { OnOk result (floor_marks.new.items ≡ put_at floor_marks.old.items place mark) }
    ensures count { IfOk result (λ count. count ≡ length (puts_void_by floor (held_changes held.old))) }
    ensures same { OnErr result (held.new ≡ held.old) }
    ensures same_marks { OnErr result (marks.new ≡ marks.old) }
    ensures same_floor_marks { OnErr result (floor_marks.new.items ≡ floor_marks.old.items) }
    ensures new { OnErr result (floor_for held.old floor.owner ≡ None) }
    ensures sound { IsSound held.new }
{
    let _count = held.floor_count();
    make_room(floor_marks, place)?;
    let count = held.raise_at(place, floor, marks)?;
    put_mark(floor_marks, place, mark);
    Ok(count)
}
