//! Guesses of the places of changes.

use crate::rows::Rows;
use ds_entry::Change;
use ds_names::{Key, Kind};
use std::alloc::{AllocError, Global};
use std::hash::{FoldHasher, Hasher};

// The length of the first table.
const FEWEST: usize = 64;

// The part of the changes after whose wrong guesses all places are noted again, as a divisor.
const SHARE: usize = 32;

/// A table from each key's hash to the slot of its change, and one from each slot to the place where its change was last
/// seen, among changes in the order of their keys.
///
/// Both are guesses: the caller checks the change there, so a wrong guess costs a search and nothing else. If two keys
/// have one hash, the slot is that of the key inserted last. There are at least four hashes for each held key, unless
/// memory ran out for them, so that is rare. A change that is inserted or dropped moves those after it, so their places
/// are wrong until they are put again. Once a 32nd of the changes were put at wrong guesses, all places are noted.
#[derive(Drop)]
pub(crate) struct Guesses {
    slots: Vec<u16>,
    places: Vec<u16>,
    wrong: usize,
}

// Hashes a key.
fn hash_of(key: &Key) -> usize {
    let mut hasher = FoldHasher::default();
    hasher.write(key.name.bytes());
    let of_kind = match key.kind {
        Kind::Label => 0,
        Kind::U32 => 1,
        Kind::Str => 2,
        Kind::Mem => 3,
    };
    (hasher.finish() as usize).wrapping_add(of_kind)
}

impl Guesses {
    /// Returns empty tables. It allocates nothing.
    pub(crate) fn new(alloc: Global) -> Guesses {
        Guesses {
            slots: Vec::new(alloc),
            places: Vec::new(alloc),
            wrong: 0,
        }
    }

    // Returns the index of a key in the first table, whose length is a power of two.
    fn index_of(&self, key: &Key) -> usize {
        hash_of(key) & self.slots.len().saturating_sub(1)
    }

    /// Returns the slot in which the change of the key may be.
    #[inline(always)]
    pub(crate) fn slot_of(&self, key: &Key) -> u16 {
        match self.slots.get(self.index_of(key)) {
            Some(slot) => *slot,
            None => 0,
        }
    }

    /// Returns the place where the change of the key may be.
    #[inline(always)]
    pub(crate) fn of(&self, key: &Key) -> usize {
        match self.places.get(usize::from(self.slot_of(key))) {
            Some(place) => usize::from(*place),
            None => 0,
        }
    }

    // Notes the place of a slot's change, and returns whether it was guessed.
    #[inline(always)]
    fn note_place(&mut self, slot: u16, place: usize) -> bool {
        if let Some(guess) = self.places.get_mut(usize::from(slot)) {
            if let Ok(place) = u16::try_from(place) {
                let is_right = *guess == place;
                *guess = place;
                return is_right;
            }
        }
        true
    }

    // Notes the slot and the place of the change at the place.
    fn note(&mut self, changes: &Rows<Change>, place: usize) {
        let slot = changes.slot_at(place);
        if let Some(change) = changes.get(place) {
            let index = self.index_of(change.key());
            if let Some(guess) = self.slots.get_mut(index) {
                *guess = slot;
            }
        }
        let _ = self.note_place(slot, place);
    }

    // Counts a wrong guess of a place, and notes all places once there were as many as a 32nd of the changes.
    #[inline(never)]
    fn count_wrong(&mut self, changes: &Rows<Change>) {
        self.wrong = self.wrong.saturating_add(1);
        if self.wrong > changes.len() / SHARE {
            self.wrong = 0;
            for place in 0..changes.len() {
                let _ = self.note_place(changes.slot_at(place), place);
            }
        }
    }

    // Notes all changes.
    fn note_all(&mut self, changes: &Rows<Change>) {
        for place in 0..changes.len() {
            self.note(changes, place);
        }
    }

    // Doubles the tables.
    #[inline(never)]
    fn grow(&mut self) -> Result<(), AllocError> {
        let count = FEWEST.max(self.slots.len().saturating_mul(2));
        self.places.resize(count / 4, 0)?;
        self.slots.resize(count, 0)
    }

    // Notes a new key's change, inserted at the place.
    fn insert(&mut self, changes: &Rows<Change>, place: usize) {
        if changes.len() > self.slots.len() / 4 && self.grow().is_ok() {
            self.note_all(changes);
        } else {
            self.note(changes, place);
        }
    }

    /// Notes a put at the place, if it succeeded.
    #[inline(always)]
    pub(crate) fn note_put(
        &mut self,
        changes: &Rows<Change>,
        place: Result<usize, usize>,
        is_put: bool,
    ) {
        match place {
            Ok(place) => {
                if !self.note_place(changes.slot_at(place), place) {
                    self.count_wrong(changes);
                }
            }
            Err(place) if is_put => self.insert(changes, place),
            Err(_) => {}
        }
    }
}
