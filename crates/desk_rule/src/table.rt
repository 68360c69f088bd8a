//! The table that threads share: word 0, one pending word for each server, and a slot for the machine.

ghost use Rattle.std.specs.Prelude.{◌≡◌, ◌≤◌, ◌<◌, ◌+◌, ◌^◌, ℕ, true, false, length, is_some, slice_index, IfSome, IfOk, IfErr};
ghost use Rattle.std.specs.Mem.Slots.{slots_items, slots_len, IsFull};
ghost use Rattle.history.specs.History.{Stepped};
ghost use Rattle.desk_rule.specs.Seat.{IsAtTable, LeavesTable};
ghost use Rattle.desk_rule.specs.Steps.{BitsAddUp, OpensTable};

use crate::view::View;
use atomic_table::{Closed, Refused, Seat, Shared, Table, TableRule};
use history::Machine;
use std::alloc::{AllocFailed, Global};
use std::marker::PhantomData;
use std::snapshot::Snapshot;

/// The call of the turn. It carries the call to the step that ends the turn, and has no bytes.
#[derive(Drop)]
pub struct LastCall<C, R> {
    /// The command.
    pub command: Snapshot<C>,
    /// The machine's reply.
    pub reply: Snapshot<R>,
}

/// The contents of the slot while no seat holds the turn.
#[derive(Drop)]
pub struct Home<M, C, R> {
    /// The machine after all calls so far.
    pub machine: M,
    /// The last call, if there was one.
    pub last: Option<LastCall<C, R>>,
}

/// The parameters of a new table.
#[derive(Drop)]
pub struct Opening<M> {
    /// The place of the first call.
    pub first: u64,
    /// The number of passes.
    pub passes: u32,
    /// The machine before the first call.
    pub machine: Snapshot<M>,
}

/// The type of the slot, which is `None` while a seat holds the turn.
pub type Slot<M> = Option<Home<M, <M as Machine>::Command, <M as Machine>::Reply>>;

/// What a seat at a desk's table knows.
pub type DeskView<M> = View<M, <M as Machine>::Command, <M as Machine>::Reply>;

/// The rule of the table, which holds between any two steps.
pub struct DeskRule<M> {
    marker: PhantomData<M>,
}

impl<M: Machine> TableRule<Slot<M>, DeskView<M>, Opening<M>> for DeskRule<M> {
    ghost use Rattle.history.specs.History.{Stepped};
    ghost use Rattle.desk_rule.specs.Rule.{RuleHolds, opening_view};

    ghost holds = { λ k. RuleHolds (Stepped M.stands M.steps) M.owes k.machine.value k.first k.passes };

    ghost first = { λ k. opening_view k.machine.value k.first k.passes };
}

/// The table with its memory.
pub type DeskTable<M> = Table<Slot<M>, DeskView<M>, Opening<M>, DeskRule<M>, Global>;

/// The table as threads see it.
pub type DeskShared<M> = Shared<Slot<M>, DeskView<M>, Opening<M>, DeskRule<M>>;

/// A seat at the table. It has no bytes.
pub type DeskSeat<M> = Seat<Slot<M>, DeskView<M>>;

/// Returns a table with the machine in its slot and no pending notice, and a seat that has all passes. If memory runs out,
/// the error hands the machine back.
pub fn new_table<M: Machine>(
    alloc: Global,
    machine: M,
    passes: u32,
    first: u64,
) -> Result<(DeskTable<M>, DeskSeat<M>), M>
    requires { first ≤ 2 ^ 62 }
    ensures opened { IfOk result (λ t. OpensTable t.0.shared.table_id t.0.shared.key t.1 machine passes first) }
    ensures back { IfErr result (λ m. m ≡ machine) }
{
    let opening = Opening {
        first,
        passes,
        machine: Snapshot::of(&machine),
    };
    let mut slots = Vec::new(alloc);
    let home = Home {
        machine,
        last: None,
    };
    if let Err(AllocFailed { value }) = slots.push(Some(home)) {
        slots.destroy_empty();
        return Err(machine_of(value));
    }
    let mut words = [0u64; 17];
    words[0] = 2 * first;
    match Table::new(alloc, &words, slots, &opening) {
        Ok(made) => Ok(made),
        Err(Refused { mut slots }) => {
            let slot = slots.pop().unwrap();
            slots.destroy_empty();
            Err(machine_of(slot))
        }
    }
}

fn machine_of<M: Machine>(slot: Slot<M>) -> M
    requires { is_some slot ≡ true }
    ensures { IfSome slot (λ home. result ≡ home.machine) }
{
    match slot {
        Some(Home { machine, last: _ }) => machine,
        None => unreachable!(),
    }
}

fn pending_words<S>(closed: &Closed<S, Global>) -> [u64; 16]
    requires { IsFull closed.now.words × (slots_len closed.now.words ≡ 17) }
    ensures { (s : ℕ) → s < 16 → slice_index result s ≡ slice_index (slots_items closed.now.words) (s + 1) }
{
    let mut pending = [0u64; 16];
    for server in 0..16usize {
        pending[server] = closed.word(server + 1);
    }
    pending
}

/// Closes the table with a seat that has all passes and no turn. Returns the machine after all calls, and the pending
/// words after all notices.
pub fn close_table<M: Machine>(table: DeskTable<M>, seat: DeskSeat<M>) -> (M, [u64; 16])
    requires at { IsAtTable table.shared.table_id seat }
    requires resting { seat.me.0.holding ≡ false }
    requires all { table.shared.key.passes ≤ length seat.me.0.passes }
    ensures closed { LeavesTable (Stepped M.stands M.steps) M.owes table.shared.key seat.me.0 result.0 result.1 }
    ensures bits { BitsAddUp seat.me.0.passes result.1 }
{
    let mut closed = table.close_with(seat);
    let slot = closed.take(0);
    let pending = pending_words(&closed);
    closed.free();
    (machine_of(slot), pending)
}
