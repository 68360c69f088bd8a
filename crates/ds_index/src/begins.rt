//! Guesses of where the labels of each slot begin.

use crate::named::{Named, is_first_of_slot};
use ds_names::Endpoint;
use std::ops::Range;

// The number of slots.
const SLOTS: usize = 1024;

/// For each slot, the index where its labels were last seen to begin, among labels in order.
///
/// An index is a guess: the caller checks the labels there, so a wrong guess costs a search and nothing else.
#[derive(Drop)]
pub(crate) struct Begins {
    of_slots: [u16; SLOTS],
}

impl Begins {
    /// Returns the table for an empty list.
    pub(crate) fn new() -> Begins {
        Begins {
            of_slots: [0; SLOTS],
        }
    }

    /// Returns the index where the labels of the endpoint's slot may begin. Labels without an endpoint come before
    /// all others.
    pub(crate) fn of(&self, endpoint: &Option<Endpoint>) -> usize {
        match endpoint {
            Some(endpoint) => usize::from(self.of_slots[usize::from(endpoint.slot())]),
            None => 0,
        }
    }

    /// Notes where labels begin among the indices of moved labels.
    pub(crate) fn look(&mut self, names: &[Named], moved: Range<usize>) {
        for index in moved {
            if is_first_of_slot(names, index) {
                self.put(names, index);
            }
        }
    }

    // Notes that the labels of the slot begin at the index.
    fn put(&mut self, names: &[Named], index: usize) {
        let Some(named) = names.get(index) else {
            return;
        };
        let Some(endpoint) = named.endpoint else {
            return;
        };
        if let Ok(index) = u16::try_from(index) {
            self.of_slots[usize::from(endpoint.slot())] = index;
        }
    }
}
