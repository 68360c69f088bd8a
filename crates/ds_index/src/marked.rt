//! Holders of changes and floors with a mark beside each.

ghost use Rattle.std.specs.Prelude.{◌≡◌, Ok, None, length, IfOk, IfSome, OnOk, OnErr};
ghost use Rattle.std.specs.Option.{option_map};
ghost use Rattle.ds_entry.specs.Change.{IsChange};
ghost use Rattle.ds_join.specs.declared.merge.Merge.TheVariants.{Taken};
ghost use Rattle.ds_held.specs.Held.{held_changes, held_floors, held_for, floor_for, IsSound};
ghost use Rattle.ds_held.specs.Kept.{puts_void_by, IsFloorPlace, IsHeldAt, IsPlace};
ghost use Rattle.ds_held.specs.Merge.{MergeAnswer};
ghost use Rattle.ds_held.specs.Raise.{RaiseAnswer};
ghost use Rattle.ds_index.specs.Marked.{nothing_marked, remarked_at, floor_remarked_at, AreMarks, AreFloorMarks, HasMarks, IsMarkAt};
ghost use Rattle.ds_index.specs.Put.{IsPutMarked, IsRaisedMarked};

use ds_entry::{Change, Floor};
use ds_held::{Held, Limits, Rows};
use ds_names::NoRoom;
use pairs::pair_at;
use putting::{put_marked, raise_marked, set_at, set_row};
use std::alloc::Global;
use std::marker::Model;

mod pairs;
mod putting;

/// What a [`Held`] holds, with a mark of the caller's beside each change and each floor.
///
/// Marks are in the order of the keys, and of the owners' names, so one search finds a change and its mark.
#[derive(Drop)]
pub struct Marked<M> {
    held: Held,
    marks: Rows<M>,
    floor_marks: Vec<M>,
}

impl<M> Model for Marked<M> {
    ghost use Rattle.ds_index.specs.Coded.{marked_code};
    ghost use Rattle.ds_index.specs.Marked.{MarkedHolding};

    ghost Value = { MarkedHolding M };

    ghost coded = { marked_code M.code };

    ghost use Rattle.ds_index.specs.Beside.{marked_by, IsBeside, IsBesideFloors};

    ghost view = { λ h. marked_by h.held h.marks h.floor_marks.items };

    ghost invariant = { λ h. IsBeside h.held h.marks × IsBesideFloors h.held h.floor_marks.items };
}

impl<M: Drop> Marked<M> {
    /// Returns an empty holder with these limits. It allocates nothing.
    pub(crate) fn bounded(alloc: Global, limits: Limits) -> Marked<M>
        ensures { result ≡ nothing_marked limits }
    {
        Marked {
            held: Held::bounded(alloc, limits),
            marks: Rows::new(alloc),
            floor_marks: Vec::new(alloc),
        }
    }

    /// Returns what is held, without the marks.
    pub fn held(&self) -> &Held
        ensures value { result.now ≡ self.now.held }
        ensures sound { IsSound self.now.held }
        ensures marked { HasMarks self.now }
    {
        let _marks = &self.marks;
        let _floor_marks = &self.floor_marks;
        &self.held
    }

    /// Returns the change at a place, and its mark, if a change is held there.
    pub fn get_at(&self, place: Result<usize, usize>) -> Option<(&Change, &M)>
        ensures change { IsHeldAt self.now.held place (option_map (λ p. p.0.now) result) }
        ensures mark { IsMarkAt self.now place (option_map (λ p. p.1.now) result) }
        ensures sound { IsSound self.now.held }
        ensures valid { IfSome result (λ p. IsChange p.0.now) }
    {
        match place {
            Ok(index) => pair_at(&self.held, &self.marks, index),
            Err(_) => None,
        }
    }

    /// Returns the marks of all changes, in the order of their keys.
    pub fn marks(&self) -> &Rows<M>
        ensures { AreMarks self.now result.now }
    {
        &self.marks
    }

    /// Returns the marks of all floors, in the order of the owners' names.
    pub fn floor_marks(&self) -> &[M]
        ensures { AreFloorMarks self.now result.now }
    {
        self.floor_marks.as_slice()
    }

    /// Puts a change that is to be taken, and its mark, at their place, as [`Held::put`] does. The mark replaces that
    /// of a held change.
    ///
    /// It allocates only for a key that isn't held. If memory runs out, nothing changes.
    #[inline(always)]
    pub fn put_at(
        &mut self,
        place: Result<usize, usize>,
        change: Change,
        mark: M,
    ) -> Result<(), NoRoom>
        requires place { IsPlace (held_changes self.old.held) change.key place }
        requires taken { MergeAnswer self.old.held change (Ok Taken) }
        ensures put { OnOk result (IsPutMarked self.old change mark self.new) }
        ensures same { OnErr result (self.new ≡ self.old) }
        ensures new { OnErr result (held_for self.old.held change.key ≡ None) }
        ensures sound { IsSound self.new.held }
        ensures change { IsChange change }
    {
        put_marked(&mut self.held, &mut self.marks, place, change, mark)
    }

    /// Puts a floor that is to be taken, and its mark, at their place, as [`Held::raise_at`] does. It drops what the
    /// floor voids, with the marks, and returns how many puts it dropped. The mark replaces that of the owner's last
    /// floor.
    ///
    /// It allocates only for an owner without a floor. If memory runs out, nothing changes.
    pub fn raise_at(
        &mut self,
        place: Result<usize, usize>,
        floor: Floor,
        mark: M,
    ) -> Result<usize, NoRoom>
        requires place { IsFloorPlace (held_floors self.old.held) floor.owner place }
        requires taken { RaiseAnswer self.old.held floor (Ok Taken) }
        ensures raised { OnOk result (IsRaisedMarked self.old floor mark self.new) }
        ensures count { IfOk result (λ count. count ≡ length (puts_void_by floor (held_changes self.old.held))) }
        ensures same { OnErr result (self.new ≡ self.old) }
        ensures new { OnErr result (floor_for self.old.held floor.owner ≡ None) }
        ensures sound { IsSound self.new.held }
    {
        raise_marked(
            &mut self.held,
            &mut self.marks,
            &mut self.floor_marks,
            place,
            floor,
            mark,
        )
    }

    /// Replaces the mark of the change at an index, in the order of the keys. It allocates nothing, and does nothing
    /// past the end.
    pub fn set_mark(&mut self, index: usize, mark: M)
        ensures held { self.new.held ≡ self.old.held }
        ensures marks { self.new.marks ≡ remarked_at self.old index mark }
        ensures floor_marks { self.new.floor_marks ≡ self.old.floor_marks }
    {
        set_row(&mut self.marks, index, mark);
    }

    /// Replaces the mark of the floor at an index, in the order of the owners' names. It allocates nothing, and does
    /// nothing past the end.
    pub fn set_floor_mark(&mut self, index: usize, mark: M)
        ensures held { self.new.held ≡ self.old.held }
        ensures marks { self.new.marks ≡ self.old.marks }
        ensures floor_marks { self.new.floor_marks ≡ floor_remarked_at self.old index mark }
    {
        set_at(&mut self.floor_marks, index, mark);
    }
}
