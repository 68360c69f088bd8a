//! Holders of changes and floors that find the name of an endpoint.

ghost use Rattle.std.specs.Prelude.{◌≡◌, Ok, None, length, IfOk, OnOk, OnErr};
ghost use Rattle.std.specs.Option.{option_copied};
ghost use Rattle.ds_entry.specs.Change.{IsChange};
ghost use Rattle.ds_join.specs.Label.{first_name_of};
ghost use Rattle.ds_join.specs.declared.merge.Merge.TheVariants.{Taken};
ghost use Rattle.ds_held.specs.Held.{held_changes, held_floors, held_for, floor_for, IsSound};
ghost use Rattle.ds_held.specs.Kept.{puts_void_by, IsFloorPlace, IsPlace};
ghost use Rattle.ds_held.specs.Merge.{MergeAnswer};
ghost use Rattle.ds_held.specs.Raise.{RaiseAnswer};
ghost use Rattle.ds_index.specs.Marked.{nothing_marked, remarked_at, floor_remarked_at, HasMarks};
ghost use Rattle.ds_index.specs.Put.{IsPutMarked, IsRaisedMarked};

use crate::index::Index;
use crate::marked::Marked;
use ds_entry::{Change, Floor};
use ds_held::{Held, Limits};
use ds_names::{Endpoint, Name, NoRoom};
use putting::put_indexed;
use std::alloc::Global;
use std::marker::Model;

mod putting;

/// What a [`Marked`] holds, with an index of the held labels by endpoint.
#[derive(Drop)]
pub struct Indexed<M> {
    marked: Marked<M>,
    index: Index,
}

impl<M> Model for Indexed<M> {
    ghost use Rattle.ds_index.specs.Coded.{marked_code};
    ghost use Rattle.ds_index.specs.Marked.{MarkedHolding};
    ghost use Rattle.ds_index.specs.Indexed.{IsIndexed};

    ghost Value = { MarkedHolding M };

    ghost coded = { marked_code M.code };

    ghost view = { λ h. h.marked };

    ghost invariant = { λ h. IsIndexed h.marked.held.changes h.index.names };
}

impl<M: Drop> Indexed<M> {
    /// Returns an empty holder with these limits. It allocates nothing.
    pub fn bounded(alloc: Global, limits: Limits) -> Indexed<M>
        ensures { result ≡ nothing_marked limits }
    {
        Indexed {
            marked: Marked::bounded(alloc, limits),
            index: Index::new(alloc),
        }
    }

    /// Returns what is held, without the marks.
    pub fn held(&self) -> &Held
        ensures value { result.now ≡ self.now.held }
        ensures sound { IsSound self.now.held }
        ensures marked { HasMarks self.now }
    {
        self.marked.held()
    }

    /// Returns what is held, with its marks.
    pub fn marked(&self) -> &Marked<M>
        ensures { result.now ≡ self.now }
    {
        &self.marked
    }

    /// Returns the least name whose live label has the endpoint, or `None` if no label does. It allocates nothing,
    /// and looks at no other key.
    ///
    /// MINIX 3's DS returns whichever label it finds first. The choice of the least one is this project's.
    #[inline(always)]
    pub fn name_of(&self, endpoint: Endpoint) -> Option<&Name>
        ensures { option_copied result ≡ first_name_of endpoint (held_changes self.now.held) }
    {
        let _count = self.marked.held().len();
        self.index.name_of(endpoint)
    }

    /// Puts a change that is to be taken, and its mark, at their place, as [`Marked::put_at`] does. For a held label,
    /// the index allocates nothing.
    pub fn put_at(
        &mut self,
        place: Result<usize, usize>,
        change: Change,
        mark: M,
    ) -> Result<(), NoRoom>
        requires place { IsPlace (held_changes self.old.held) change.key place }
        requires taken { MergeAnswer self.old.held change (Ok Taken) }
        ensures put { OnOk result (IsPutMarked self.old change mark self.new) }
        ensures same { OnErr result (self.new ≡ self.old) }
        ensures new { OnErr result (held_for self.old.held change.key ≡ None) }
        ensures sound { IsSound self.new.held }
        ensures change { IsChange change }
    {
        put_indexed(&mut self.marked, &mut self.index, place, change, mark)
    }

    /// Puts a floor that is to be taken, and its mark, at their place, as [`Marked::raise_at`] does. Returns how many
    /// puts it dropped. It drops no label.
    pub fn raise_at(
        &mut self,
        place: Result<usize, usize>,
        floor: Floor,
        mark: M,
    ) -> Result<usize, NoRoom>
        requires place { IsFloorPlace (held_floors self.old.held) floor.owner place }
        requires taken { RaiseAnswer self.old.held floor (Ok Taken) }
        ensures raised { OnOk result (IsRaisedMarked self.old floor mark self.new) }
        ensures count { IfOk result (λ count. count ≡ length (puts_void_by floor (held_changes self.old.held))) }
        ensures same { OnErr result (self.new ≡ self.old) }
        ensures new { OnErr result (floor_for self.old.held floor.owner ≡ None) }
        ensures sound { IsSound self.new.held }
    {
        let _held = self.marked.held();
        self.marked.raise_at(place, floor, mark)
    }

    /// Replaces the mark of the change at an index, in the order of the keys. It allocates nothing, and does nothing
    /// past the end.
    pub fn set_mark(&mut self, index: usize, mark: M)
        ensures held { self.new.held ≡ self.old.held }
        ensures marks { self.new.marks ≡ remarked_at self.old index mark }
        ensures floor_marks { self.new.floor_marks ≡ self.old.floor_marks }
    {
        self.marked.set_mark(index, mark);
    }

    /// Replaces the mark of the floor at an index, in the order of the owners' names. It allocates nothing, and does
    /// nothing past the end.
    pub fn set_floor_mark(&mut self, index: usize, mark: M)
        ensures held { self.new.held ≡ self.old.held }
        ensures marks { self.new.marks ≡ self.old.marks }
        ensures floor_marks { self.new.floor_marks ≡ floor_remarked_at self.old index mark }
    {
        self.marked.set_floor_mark(index, mark);
    }
}
