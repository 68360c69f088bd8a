//! Lists in slots.

ghost use Rattle.std.specs.Prelude.{◌≡◌, ℕ, ◌<◌, ◌≤◌, [], Some, length, slice_get, slice_index_or, slice_set, IfSome, OnOk, OnErr};
ghost use Rattle.std.specs.List.{insert, remove};
ghost use Rattle.std.specs.Option.{option_copied};

use crate::slots::{insert_in, remove_in, set_in};
use ds_names::NoRoom;
use std::alloc::Global;
use std::marker::Model;

/// A list whose elements stay in their slots; a list of slot numbers, of two bytes each, has their order.
///
/// An insertion moves numbers in place of elements. The slot of a removed element is used again.
#[derive(Drop)]
pub struct Rows<T> {
    order: Vec<u16>,
    spare: Vec<u16>,
    slots: Vec<Option<T>>,
}

impl<T> Model for Rows<T> {
    ghost use Rattle.std.specs.Prelude.{List, vec_capacity};
    ghost use Rattle.std.specs.Coded.{coded_list};
    ghost use Rattle.ds_held.specs.Rows.{rows_of, AreInSlots};

    ghost Value = { List T };

    ghost coded = { coded_list T.code };

    ghost view = { λ r. rows_of r.order.items r.slots.items };

    ghost invariant = { λ r. AreInSlots r.order.items r.spare.items r.slots.items (vec_capacity r.spare) };
}

impl<T: Drop> Rows<T> {
    /// Returns an empty list. It allocates nothing.
    pub fn new(alloc: Global) -> Rows<T>
        ensures { result ≡ [] }
    {
        Rows {
            order: Vec::new(alloc),
            spare: Vec::new(alloc),
            slots: Vec::new(alloc),
        }
    }

    /// Removes all elements. It allocates nothing.
    pub fn clear(&mut self)
        ensures { self.new ≡ [] }
    {
        self.order.clear();
        self.spare.clear();
        self.slots.clear();
    }

    /// Returns the number of elements.
    pub fn len(&self) -> usize
        ensures { result ≡ length self.now }
    {
        self.order.len()
    }

    /// Returns the element at an index; `None` past the end.
    pub fn get(&self, index: usize) -> Option<&T>
        ensures { option_copied result ≡ slice_get self.now index }
    {
        match self.order.get(index) {
            Some(slot) => self.slots[usize::from(*slot)].as_ref(),
            None => None,
        }
    }

    /// Returns the element at an index.
    pub fn at(&self, index: usize) -> &T
        requires { index < length self.now }
        ensures { result.now ≡ slice_index_or self.now index result.now }
    {
        self.get(index).unwrap()
    }

    /// Returns the number of the slot of the element at an index; 0 past the end. It is for guesses: no clause says which
    /// number it is.
    pub(crate) fn slot_at(&self, index: usize) -> u16 {
        match self.order.get(index) {
            Some(slot) => *slot,
            None => 0,
        }
    }

    /// Returns the element in a slot: one of the list, or `None` if the slot is empty.
    pub(crate) fn in_slot(&self, slot: u16) -> Option<&T>
        ensures { IfSome result (λ x. (k : ℕ) × (slice_get self.now k ≡ Some x.now)) }
    {
        match self.slots.get(usize::from(slot)) {
            Some(element) => element.as_ref(),
            None => None,
        }
    }

    /// Replaces the element at an index. It allocates nothing.
    pub fn set(&mut self, index: usize, element: T)
        requires { index < length self.old }
        ensures { self.new ≡ slice_set self.old index element }
    {
        set_in(&self.order, &mut self.slots, index, element);
    }

    /// Inserts an element at an index. If memory runs out, nothing changes.
    pub fn insert(&mut self, index: usize, element: T) -> Result<(), NoRoom>
        requires within { index ≤ length self.old }
        requires few { length self.old < 65536 }
        ensures inserted { OnOk result (self.new ≡ insert self.old index element) }
        ensures same { OnErr result (self.new ≡ self.old) }
    {
        insert_in(
            &mut self.order,
            &mut self.spare,
            &mut self.slots,
            index,
            element,
        )
    }

    /// Removes the element at an index. It allocates nothing.
    pub fn remove(&mut self, index: usize)
        requires { index < length self.old }
        ensures { self.new ≡ remove self.old index }
    {
        remove_in(&mut self.order, &mut self.spare, &mut self.slots, index);
    }
}
