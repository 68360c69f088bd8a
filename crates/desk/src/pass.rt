//! Passes, with which a thread calls a desk, and notes, with which it tells another one what it has seen.
//!
//! The structs have plain type parameters, so that the compiler finds them to be `Send` for every machine.

ghost use Rattle.std.specs.Prelude.{◌≡◌, ◌≤◌, ◌^◌, ℕ, Bool, true, length};
ghost use Rattle.desk.specs.Tally.{Tallies};

use atomic_table::Seat;
use desk_rule::{DeskView, Slot, View};

/// The properties of a view that passes and notes use.
pub trait Sight {
    // Whether the view is of a seat with one pass, which doesn't hold the turn.
    ghost rests: { Self → Bool };

    // Whether the view is a note's.
    ghost listens: { Self → Bool };

    // How often the passes of the view raised a bit of a server.
    ghost raised: { Self → ℕ → ℕ → ℕ };

    ghost taken: { Self → ℕ → ℕ → ℕ };
}

impl<M, C, R> Sight for View<M, C, R> {
    ghost use Rattle.desk_rule.specs.Steps.{rests_of};
    ghost use Rattle.desk.specs.Sight.{listens_of, raised_of, taken_of};

    ghost rests = { rests_of };

    ghost listens = { listens_of };

    ghost raised = { raised_of };

    ghost taken = { taken_of };
}

/// A pass: a seat from which one thread calls, with counts.
#[derive(Drop)]
pub struct PassOf<S, V: Sight> {
    pub(crate) seat: Seat<S, V>,
    // The numbers of notes that the pass made and learnt.
    pub(crate) made: u64,
    pub(crate) learnt: u64,
    // For each bit, eight to a server, how often the pass raised it.
    pub(crate) raises: [u64; 128],
    pub(crate) takes: [u64; 128],
    ghost few_notes: { (made ≤ 2 ^ 62) × (learnt ≤ 2 ^ 62) },
    ghost raises_counted: { Tallies raises (V.raised seat.me.0) },
    ghost takes_counted: { Tallies takes (V.taken seat.me.0) },
    ghost nothing_out: { length seat.me.1 ≡ 0 },
    ghost resting: { V.rests seat.me.0 ≡ true },
}

/// A note: a seat from which no thread calls.
#[derive(Drop)]
pub struct NoteOf<S, V: Sight> {
    pub(crate) seat: Seat<S, V>,
    ghost nothing_out: { length seat.me.1 ≡ 0 },
    ghost listening: { V.listens seat.me.0 ≡ true },
}

/// The right to call a desk. A pass knows how much of the history it has seen, and which entries are its own.
pub type Pass<M> = PassOf<Slot<M>, DeskView<M>>;

/// A note of what a pass has seen of the history and of the order of notices, for another pass to learn.
pub type Note<M> = NoteOf<Slot<M>, DeskView<M>>;
