//! Closing a desk.

ghost use Rattle.std.specs.Prelude.{◌≡◌, ◌≤◌, ◌+◌, ℕ, length, IfOk, IfErr, OnOk};
ghost use Rattle.std.specs.List.{AllByRecursion};
ghost use mathlib.Core.List.{IsPrefix};
ghost use Rattle.desk_rule.specs.History.{total_of};
ghost use Rattle.desk_rule.specs.Notices.{raised_by, taken_by};
ghost use Rattle.desk_rule.specs.Seat.{IsAtTable};
ghost use Rattle.desk.specs.Desk.{first_call, identity, opened_with, pass_count};
ghost use Rattle.desk.specs.Closing.{AllAgree, AllLearnt, HasAllNoticed, HasAllSeen, IsAccount, IsCloseFault, IsPassesFault};
ghost use Rattle.desk.specs.Closing.{LeavesHistory, Wraps, gathered};
ghost use Rattle.desk.specs.Pass.{desk_of, notes_learnt, notes_made};
ghost use Rattle.desk.specs.Tally.{Tallies};

use crate::account::{Account, AccountRoom, add_rows, fill_rows};
use crate::desk::{Desk, DeskOf};
use crate::fault::DeskFault;
use crate::pass::{Pass, PassOf};
use crate::passes::{Passes, PassesOf};
use desk_rule::{DeskSeat, DeskShared, Machine, close_table, join_pass, look};
use std::alloc::Global;

/// The result of closing a desk.
#[derive(Drop)]
pub struct Closed<M> {
    /// The machine after every call.
    pub machine: M,
    /// The account of all notices.
    pub account: Account,
}

/// Why a desk wasn't closed. The desk and the passes are handed back unchanged.
#[derive(Drop)]
pub struct CloseStop<D, P> {
    /// The cause.
    pub fault: DeskFault,
    /// The desk.
    pub desk: D,
    /// The passes.
    pub passes: P,
}

// Returns the number of notes that the passes made, and the number that they learnt.
fn count_notes<M: Machine>(passes: &Vec<Pass<M>>) -> (u128, u128)
    ensures made { result.0 ≡ total_of notes_made passes.now.items }
    ensures learnt { result.1 ≡ total_of notes_learnt passes.now.items }
{
    let mut made = 0u128;
    let mut learnt = 0u128;
    for i in 0..passes.len() {
        let pass = &passes[i];
        made += pass.made as u128;
        learnt += pass.learnt as u128;
    }
    (made, learnt)
}

/// Fails if these passes can't close a desk of `made` passes: some are missing, or they didn't learn as many notes as they made.
pub(crate) fn can_close<M: Machine>(made: u32, passes: &Vec<Pass<M>>) -> Result<(), DeskFault>
    ensures closes { OnOk result ((made ≤ length passes.now.items) × AllLearnt passes.now.items) }
    ensures stays { IfErr result (λ fault. IsPassesFault fault made passes.now.items) }
{
    if passes.len() < made as usize {
        return Err(DeskFault::PassesOut);
    }
    let (made, learnt) = count_notes(passes);
    if made != learnt {
        return Err(DeskFault::Noted);
    }
    Ok(())
}

// Allocates the memory for the account, if these passes can close a desk of `made` passes. Otherwise returns why not.
fn room_to_close<M: Machine>(
    alloc: Global,
    made: u32,
    passes: &Vec<Pass<M>>,
) -> Result<AccountRoom, DeskFault>
    ensures closes { OnOk result ((made ≤ length passes.now.items) × AllLearnt passes.now.items) }
    ensures stays { IfErr result (λ fault. IsCloseFault fault made passes.now.items) }
{
    match can_close(made, passes) {
        Ok(()) => AccountRoom::new(alloc),
        Err(fault) => Err(fault),
    }
}

// Moves all passes to one seat, which learns what the others have seen, and adds up the rows of all passes.
fn gather<M: Machine>(
    shared: &DeskShared<M>,
    seat: &mut DeskSeat<M>,
    raise_sums: &mut [u64; 128],
    take_sums: &mut [u64; 128],
    mut others: Vec<Pass<M>>,
)
    requires at { IsAtTable shared.now.table_id seat.old }
    requires others { AllByRecursion (λ p. desk_of p ≡ shared.now.table_id) others.items }
    requires counted { Tallies raise_sums.old (raised_by seat.old.me.0.passes) × Tallies take_sums.old (taken_by seat.old.me.0.passes) }
    ensures same { (seat.new.table_id ≡ seat.old.table_id) × (seat.new.me.0.holding ≡ seat.old.me.0.holding) }
    ensures passes { seat.new.me.0.passes ≡ gathered seat.old.me.0.passes others.items }
    ensures seen { IsPrefix seat.old.me.0.seen seat.new.me.0.seen × HasAllSeen seat.new.me.0.seen others.items }
    ensures notices { IsPrefix seat.old.me.0.notices seat.new.me.0.notices × HasAllNoticed seat.new.me.0.notices others.items }
    ensures counted { Wraps raise_sums.new (raised_by seat.new.me.0.passes) × Wraps take_sums.new (taken_by seat.new.me.0.passes) }
{
    while let Some(pass) = others.pop() {
        let PassOf {
            seat: other,
            made: _,
            learnt: _,
            raises,
            takes,
        } = pass;
        add_rows(raise_sums, &raises);
        add_rows(take_sums, &takes);
        join_pass(shared, seat, other);
        look(shared, seat);
    }
}

impl<M: Machine> Desk<M> {
    /// Closes the desk, and returns the machine after one legal history and the account of the notices.
    ///
    /// The history extends all that each pass has seen, and its entries are exactly the passes' calls. The notices have one
    /// order. Each found its word as the notices before it left it, and what all of them leave is pending in the account.
    ///
    /// Refuses as PassesOut if a pass is missing, then as Noted if the passes didn't learn as many notes as they made. Then
    /// reports NoRoom if memory runs out. A refusal hands the desk and the passes back.
    pub fn close(
        self,
        alloc: Global,
        passes: Passes<M>,
    ) -> Result<Closed<M>, CloseStop<Desk<M>, Passes<M>>>
        requires { AllByRecursion (λ p. desk_of p ≡ identity self) passes }
        ensures history { IfOk result (λ c. LeavesHistory M.stands M.steps M.owes (opened_with self) (first_call self) passes c) }
        ensures agree { OnOk result (AllAgree passes) }
        ensures account { IfOk result (λ c. IsAccount passes c.account) }
        ensures notes { IfOk result (λ _. (pass_count self ≤ length passes) × AllLearnt passes) }
        ensures refused { IfErr result (λ stop. IsCloseFault stop.fault (pass_count self) passes) }
        ensures back { IfErr result (λ stop. (stop.desk ≡ self) × (stop.passes ≡ passes)) }
    {
        match room_to_close(alloc, self.made, &passes.passes) {
            Ok(room) => Ok(self.close_all(room, passes)),
            Err(fault) => Err(CloseStop {
                fault,
                desk: self,
                passes,
            }),
        }
    }

    /// Like `close`, with all of the desk's passes and memory that was allocated before. Can't fail.
    pub(crate) fn close_all(self, room: AccountRoom, passes: Passes<M>) -> Closed<M>
        requires of_desk { AllByRecursion (λ p. desk_of p ≡ identity self) passes }
        requires enough { pass_count self ≤ length passes }
        ensures history { LeavesHistory M.stands M.steps M.owes (opened_with self) (first_call self) passes result }
        ensures agree { AllAgree passes }
        ensures account { IsAccount passes result.account }
    {
        let AccountRoom { mut rows } = room;
        let PassesOf { passes: mut others } = passes;
        let last = others.pop().unwrap();
        let PassOf {
            mut seat,
            made: _,
            learnt: _,
            mut raises,
            mut takes,
        } = last;
        let DeskOf { table, made: _ } = self;
        gather(&table.shared, &mut seat, &mut raises, &mut takes, others);
        let (machine, pending) = close_table(table, seat);
        fill_rows(&pending, &raises, &takes, &mut rows);
        Closed {
            machine,
            account: Account { rows },
        }
    }
}
