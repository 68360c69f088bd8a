//! The desk, and the results of its calls.

ghost use Rattle.std.specs.Prelude.{◌≡◌, ◌<◌, ℕ};

use atomic_table::{Table, TableRule};
use desk_rule::{DeskRule, DeskView, Opening, Slot};
use std::alloc::Global;

/// Types that have the number of passes of a table.
pub trait Made {
    ghost passes: { Self → ℕ };
}

impl<M> Made for Opening<M> {
    ghost passes = { λ opening. opening.passes };
}

/// A desk's table, with the number of its passes.
#[derive(Drop)]
pub struct DeskOf<S, V, K: Made, Q: TableRule<S, V, K>> {
    pub(crate) table: Table<S, V, K, Q, Global>,
    pub(crate) made: u32,
    ghost some_pass: { 0 < made },
    ghost words: { table.shared.table_id.words ≡ 17 },
    ghost slots: { table.shared.table_id.slots ≡ 1 },
    ghost counted: { K.passes table.shared.key ≡ made },
}

/// A machine that threads call in turns.
pub type Desk<M> = DeskOf<Slot<M>, DeskView<M>, Opening<M>, DeskRule<M>>;

/// The result of a call.
#[derive(Drop)]
pub struct Answer<R> {
    /// The machine's reply.
    pub reply: R,
    /// The place of the call in the history, counted from the desk's first place.
    pub place: u64,
    /// The mask that the reply owes. Bit 8 s + k is subscription k of server s.
    pub owed: u128,
    /// The bits of `owed` that weren't pending.
    pub raised: u128,
}

/// The result of a take.
#[derive(Clone, Copy, PartialEq, Eq)]
pub struct Taken {
    /// The bits that were pending. Bit k is the server's subscription k.
    pub bits: u8,
    /// The first place without a call when word 0 was loaded, which was after the bits were taken.
    pub floor: u64,
}
