//! Process slots.

ghost use Rattle.std.specs.Prelude.{◌≡◌, ◌<◌, length};
ghost use Rattle.rs_core.specs.Slots.{new_slots, next_key, with_next_taken, with_freed};

use arrayvec::ArrayVec;
use std::marker::Model;

/// RS's process slots, by their keys: the first slot has key 0.
///
/// The slot that was freed last is taken first. If none is free, the first one never used is taken. So at most as many
/// keys are used as services ever ran at once. No call takes memory.
#[derive(Drop)]
pub(crate) struct Slots {
    first: u16,
    // The freed keys, the last one freed at the end. At most 64 services run.
    freed: ArrayVec<usize, 64>,
    // How many keys were ever taken; all of them are below this.
    taken: usize,
}

impl Model for Slots {
    ghost use Rattle.std.specs.Prelude.{reverse};
    ghost use Rattle.rs_core.specs.Slots.{SlotsRecord, slots_from, slots_code};

    ghost Value = { SlotsRecord };

    ghost coded = { slots_code };

    ghost view = { λ s. slots_from s.first (reverse s.freed.items) s.taken };
}

impl Slots {
    /// Returns slots of which none was taken.
    pub fn new(first: u16) -> Slots
        ensures { result ≡ new_slots first }
    {
        Slots {
            first,
            freed: ArrayVec::new(),
            taken: 0,
        }
    }

    /// Returns the slot with key 0.
    pub fn first(&self) -> u16
        ensures { result ≡ self.now.first }
    {
        self.first
    }

    /// Returns the key that is taken next.
    pub fn next_key(&self) -> usize
        ensures { result ≡ next_key self.now }
    {
        match self.freed.as_slice().last() {
            Some(key) => *key,
            None => self.taken,
        }
    }

    /// Takes the key that [`Slots::next_key`] returns. It must be below 1008, since slots are 16 to 1023.
    pub fn take_next(&mut self)
        requires { next_key self.old < 1008 }
        ensures { self.new ≡ with_next_taken self.old }
    {
        if self.freed.pop().is_none() {
            self.taken += 1;
        }
    }

    /// Frees the key.
    pub fn free(&mut self, key: usize)
        requires { length self.old.freed < 64 }
        ensures { self.new ≡ with_freed self.old key }
    {
        self.freed.push(key);
    }
}
