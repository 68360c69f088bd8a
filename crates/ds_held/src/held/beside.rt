//! What a holder offers callers that keep marks beside it and judge a command first: places in its lists, and the
//! steps of a merge and of a raised floor.

ghost use Rattle.std.specs.Prelude.{◌≡◌, length, Ok, None, IfOk, OnOk, OnErr};
ghost use Rattle.ds_entry.specs.Change.{IsChange};
ghost use Rattle.ds_join.specs.declared.merge.Merge.TheVariants.{Taken};
ghost use Rattle.ds_held.specs.Held.{floor_for, held_changes, held_floors, held_for, IsSound};
ghost use Rattle.ds_held.specs.Kept.{left_by_floor, marks_left, put_at, puts_void_by, IsFloorPlace, IsPlace};
ghost use Rattle.ds_held.specs.Merge.{after_merge, MergeAnswer};
ghost use Rattle.ds_held.specs.Raise.{after_raise, RaiseAnswer};

use super::Held;
use crate::floors;
use crate::list::{put, put_row};
use crate::order::place_of;
use crate::rows::Rows;
use crate::void::drop_beside;
use ds_entry::{Change, Floor};
use ds_names::{Key, Name, NoRoom};

impl Held {
    /// Searches for a key's change: `Ok` is its index in key order, `Err` the index at which it would be inserted.
    /// The guessed place is checked first; otherwise one search finds it.
    pub fn place(&self, key: &Key) -> Result<usize, usize>
        ensures { IsPlace (held_changes self.now) key.now result }
    {
        place_of(&self.changes, self.guesses.of(key), key)
    }

    /// Puts a change at its place. The caller has judged already that [`Held::merge`] would take it.
    ///
    /// It allocates only for a key that isn't held, and is refused only if memory runs out; then nothing changes.
    #[inline(always)]
    pub fn put(&mut self, place: Result<usize, usize>, change: Change) -> Result<(), NoRoom>
        requires place { IsPlace (held_changes self.old) change.key place }
        requires taken { MergeAnswer self.old change (Ok Taken) }
        ensures after { OnOk result (self.new ≡ after_merge self.old change (Ok Taken)) }
        ensures list { OnOk result (held_changes self.new ≡ put_at (held_changes self.old) place change) }
        ensures same { OnErr result (self.new ≡ self.old) }
        ensures new { OnErr result (held_for self.old change.key ≡ None) }
        ensures sound { IsSound self.new }
        ensures change { IsChange change }
    {
        let _key = change.key();
        let answer = put_row(&mut self.changes, place, change);
        self.guesses.note_put(&self.changes, place, answer.is_ok());
        answer
    }

    /// Searches for an owner's floor: `Ok` is its index in the order of the owners' names, `Err` the index at which
    /// it would be inserted. One search finds it.
    pub fn floor_place(&self, owner: &Name) -> Result<usize, usize>
        ensures { IsFloorPlace (held_floors self.now) owner.now result }
    {
        floors::place_of(&self.floors, owner)
    }

    /// Puts a floor at its owner's place, drops what it voids, and returns how many puts it dropped. The caller has
    /// already judged that [`Held::raise`] would take it. From `marks`, the list beside the changes, it drops the
    /// elements of the dropped changes; the others keep their order.
    ///
    /// Allocates only for an owner without a floor, and fails only if memory runs out; then neither what is
    /// held nor the list changes.
    pub fn raise_at<M: Drop>(
        &mut self,
        place: Result<usize, usize>,
        floor: Floor,
        marks: &mut Rows<M>,
    ) -> Result<usize, NoRoom>
        requires place { IsFloorPlace (held_floors self.old) floor.owner place }
        requires taken { RaiseAnswer self.old floor (Ok Taken) }
        requires beside { length marks.old ≡ length (held_changes self.old) }
        ensures after { OnOk result (self.new ≡ after_raise self.old floor (Ok Taken)) }
        ensures list { OnOk result (held_changes self.new ≡ left_by_floor floor (held_changes self.old)) }
        ensures marks { OnOk result (marks.new ≡ marks_left floor (held_changes self.old) marks.old) }
        ensures count { IfOk result (λ count. count ≡ length (puts_void_by floor (held_changes self.old))) }
        ensures same { OnErr result ((self.new ≡ self.old) × (marks.new ≡ marks.old)) }
        ensures new { OnErr result (floor_for self.old floor.owner ≡ None) }
        ensures sound { IsSound self.new }
    {
        match put(&mut self.floors, place, floor) {
            Ok(()) => Ok(drop_beside(&mut self.changes, marks, &floor)),
            Err(NoRoom) => Err(NoRoom),
        }
    }
}
