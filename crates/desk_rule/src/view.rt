//! What a seat at the table knows. These types are for proofs, and have no values at run time.

use crate::notice::Notice;
use history::Entry;
use std::collections::LinkedList;

/// The record of one pass.
pub struct PassLog<C, R> {
    /// The number of the pass.
    pub pass: u64,
    /// The pass's calls, in order.
    pub calls: LinkedList<Entry<C, R>>,
    /// The pass's posts and takes, in order.
    pub notices: LinkedList<Notice>,
}

/// A view: what one seat knows, and what its passes did.
pub struct View<M, C, R> {
    /// The machine before the first call. `None` in a spent view.
    pub opening: Option<M>,
    /// The place of the first call.
    pub first: u64,
    /// Whether this seat holds the turn.
    pub holding: bool,
    /// The prefix of the history that the seat has seen.
    pub seen: LinkedList<Entry<C, R>>,
    /// A prefix of the history that the seat learnt from a note, and hasn't seen itself yet.
    pub told: LinkedList<Entry<C, R>>,
    /// The prefix of the order of notices that the seat has seen.
    pub notices: LinkedList<Notice>,
    /// A prefix of that order that the seat learnt from a note.
    pub told_notices: LinkedList<Notice>,
    /// The passes at this seat, each with its record.
    pub passes: LinkedList<PassLog<C, R>>,
}
