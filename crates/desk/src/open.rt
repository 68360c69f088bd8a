//! Opening a desk.

ghost use Rattle.std.specs.Prelude.{◌≡◌, ◌<◌, ◌≤◌, ◌^◌, [], length, vec_capacity, true, Some, IfOk, IfErr, OnOk};
ghost use Rattle.std.specs.List.{AllByRecursion};
ghost use Rattle.desk_rule.specs.Passes.{notices_of};
ghost use Rattle.desk_rule.specs.Rule.{opening_view};
ghost use Rattle.desk_rule.specs.Seat.{IsAtTable};
ghost use Rattle.desk_rule.specs.Steps.{rests_of};
ghost use Rattle.desk.specs.Desk.{identity, opened_with, pass_count, first_call};
ghost use Rattle.desk.specs.Opening.{AreNewPasses, IsDeskFault};
ghost use Rattle.desk.specs.Pass.{desk_of};

use crate::desk::{Desk, DeskOf};
use crate::fault::DeskFault;
use crate::pass::{Pass, PassOf};
use crate::passes::{Passes, PassesOf};
use desk_rule::{DeskSeat, DeskShared, Machine, new_table, split_pass};
use std::alloc::Global;
use std::snapshot::Snapshot;

/// The error for a desk that wasn't opened. It hands the machine back.
#[derive(Drop)]
pub struct OpenStop<M> {
    /// The cause.
    pub fault: DeskFault,
    /// The machine.
    pub machine: M,
}

// Returns a pass between its calls that has counted nothing yet.
fn new_pass<M: Machine>(seat: DeskSeat<M>) -> Pass<M>
    requires nothing_out { seat.me.1 ≡ [] }
    requires resting { rests_of seat.me.0 ≡ true }
    requires none { notices_of seat.me.0.passes ≡ [] }
    ensures { (result.seat ≡ seat) × (result.made ≡ 0) × (result.learnt ≡ 0) }
{
    PassOf {
        seat,
        made: 0,
        learnt: 0,
        raises: [0; 128],
        takes: [0; 128],
    }
}

// Splits the seat's passes into one seat each, and appends these to the list, which has the capacity for them.
fn deal<M: Machine>(
    shared: &DeskShared<M>,
    mut seat: DeskSeat<M>,
    machine: &Snapshot<M>,
    first: u64,
    count: u32,
    passes: &mut Vec<Pass<M>>,
)
    requires at { IsAtTable shared.now.table_id seat }
    requires seat { seat.me ≡ (opening_view machine.now.value first count, []) }
    requires room { (0 < count) × (passes.old.items ≡ []) × (count ≤ vec_capacity passes.old) }
    ensures { AreNewPasses shared.now.table_id (Some machine.now.value) first count passes.new.items }
{
    let mut left = count;
    while left > 1 {
        let one = split_pass(shared, &mut seat);
        passes.push_reserved(new_pass(one));
        left -= 1;
    }
    passes.push_reserved(new_pass(seat));
}

// Allocates a list for `passes` passes, or returns why a desk with this number and the place `first` can't be opened.
fn room_for<M: Machine>(alloc: Global, passes: u32, first: u64) -> Result<Vec<Pass<M>>, DeskFault>
    ensures room { IfOk result (λ dealt. (dealt.items ≡ []) × (passes ≤ vec_capacity dealt)) }
    ensures accepted { OnOk result ((0 < passes) × (passes ≤ 64) × (first ≤ 2 ^ 62)) }
    ensures refused { IfErr result (λ fault. IsDeskFault fault passes first) }
{
    if passes == 0 || passes > 64 {
        return Err(DeskFault::BadCount);
    }
    if first > 1 << 62 {
        return Err(DeskFault::BadFirst);
    }
    match Vec::with_capacity(alloc, passes as usize) {
        Ok(dealt) => Ok(dealt),
        Err(_) => Err(DeskFault::NoRoom),
    }
}

impl<M: Machine> Desk<M> {
    /// Opens a desk over the machine, and returns it with 1 to 64 passes to call it with. The passes have different numbers.
    /// The first call gets the place `first`.
    ///
    /// Refuses 0 passes or more than 64 as BadCount, then a `first` above 2^62 as BadFirst. Then reports NoRoom if memory
    /// runs out. A refusal hands the machine back.
    pub fn open(
        alloc: Global,
        machine: M,
        passes: u32,
        first: u64,
    ) -> Result<(Desk<M>, Passes<M>), OpenStop<M>>
        ensures desk { IfOk result (λ d. (opened_with d.0 ≡ machine) × (pass_count d.0 ≡ passes) × (first_call d.0 ≡ first)) }
        ensures passes { IfOk result (λ d. AreNewPasses (identity d.0) (Some machine) first passes d.1 × (length d.1 ≡ passes)) }
        ensures of_desk { IfOk result (λ d. AllByRecursion (λ p. desk_of p ≡ identity d.0) d.1) }
        ensures accepted { OnOk result ((0 < passes) × (passes ≤ 64) × (first ≤ 2 ^ 62)) }
        ensures refused { IfErr result (λ stop. IsDeskFault stop.fault passes first) }
        ensures back { IfErr result (λ stop. stop.machine ≡ machine) }
    {
        let mut dealt = match room_for(alloc, passes, first) {
            Ok(dealt) => dealt,
            Err(fault) => return Err(OpenStop { fault, machine }),
        };
        let opened = Snapshot::of(&machine);
        match new_table(alloc, machine, passes, first) {
            Ok((table, seat)) => {
                deal(&table.shared, seat, &opened, first, passes, &mut dealt);
                let desk = DeskOf {
                    table,
                    made: passes,
                };
                Ok((desk, PassesOf { passes: dealt }))
            }
            Err(machine) => Err(OpenStop {
                fault: DeskFault::NoRoom,
                machine,
            }),
        }
    }
}
