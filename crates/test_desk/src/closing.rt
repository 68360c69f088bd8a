//! Closes a desk with two passes.

ghost use Rattle.std.specs.Prelude.{◌≡◌, ◌∷◌, [], IfSome};
ghost use Rattle.std.specs.List.{AllByRecursion};
ghost use Rattle.desk.specs.Desk.{identity};
ghost use Rattle.desk.specs.Pass.{desk_of, desk_of_note};

use crate::followed::Followed;
use crate::playing::look;
use crate::table::Table;
use crate::tell::{tell, tell_fault};
use desk::{AccountRoom, CloseStop, Closed, Desk, Note, Pass, Passes};
use std::alloc::Global;
use test_kit::Failure;

/// Closes the desk with both passes. Prints the machine's position and the row of a subscription, or why the desk stays open.
pub(crate) fn close_both<M: Followed + Drop, R: Print>(
    rt: &R,
    alloc: Global,
    table: Table<Desk<M>, Pass<M>>,
    sub: usize,
) -> Result<(), Failure>
where
    M::Command: Drop,
    M::Reply: Drop,
    requires one { desk_of table.one ≡ identity table.desk }
    requires two { desk_of table.two ≡ identity table.desk }
{
    let Table { desk, one, two } = table;
    let Some(passes) = list_of::<M>(alloc, one, two) else {
        return Err(Failure::NoRoom);
    };
    close(rt, alloc, desk, passes, sub)
}

/// Tries to close the desk with a note that isn't learnt, then with a pass missing, and then with both passes.
pub(crate) fn close_when_learnt<M: Followed + Drop, R: Print>(
    rt: &R,
    alloc: Global,
    table: Table<Desk<M>, Pass<M>>,
) -> Result<(), Failure>
where
    M::Command: Drop,
    M::Reply: Drop,
    requires one { desk_of table.one ≡ identity table.desk }
    requires two { desk_of table.two ≡ identity table.desk }
{
    let Table { desk, mut one, two } = table;
    let Ok(note) = desk.note(&mut one) else {
        return Err(Failure::Worn);
    };
    let Some(passes) = list_of::<M>(alloc, one, two) else {
        return Err(Failure::NoRoom);
    };
    match desk.close(alloc, passes) {
        Ok(closed) => tell_closed(rt, &closed, 0),
        Err(stop) => close_with_pass_out(rt, alloc, stop, note),
    }
}

// Lets the second pass learn the note. Then tries to close with the first pass alone, and then with both.
fn close_with_pass_out<M: Followed + Drop, R: Print>(
    rt: &R,
    alloc: Global,
    mut stop: CloseStop<Desk<M>, Passes<M>>,
    note: Note<M>,
) -> Result<(), Failure>
where
    M::Command: Drop,
    M::Reply: Drop,
    requires passes { AllByRecursion (λ p. desk_of p ≡ identity stop.desk) stop.passes }
    requires note { desk_of_note note ≡ identity stop.desk }
{
    tell_fault(rt, stop.fault)?;
    let Some(mut two) = stop.passes.pop() else {
        return Err(Failure::NoRoom);
    };
    learn(rt, &stop.desk, &mut two, note)?;
    match stop.desk.close(alloc, stop.passes) {
        Ok(closed) => tell_closed(rt, &closed, 0),
        Err(stop) => close_with_pass_back(rt, alloc, stop, two),
    }
}

// Closes with the pass that was missing.
fn close_with_pass_back<M: Followed + Drop, R: Print>(
    rt: &R,
    alloc: Global,
    mut stop: CloseStop<Desk<M>, Passes<M>>,
    two: Pass<M>,
) -> Result<(), Failure>
where
    M::Command: Drop,
    M::Reply: Drop,
    requires passes { AllByRecursion (λ p. desk_of p ≡ identity stop.desk) stop.passes }
    requires two { desk_of two ≡ identity stop.desk }
{
    tell_fault(rt, stop.fault)?;
    if stop.passes.push(two).is_err() {
        return Err(Failure::NoRoom);
    }
    close(rt, alloc, stop.desk, stop.passes, 0)
}

// Learns a note, and then looks.
fn learn<M: Followed + Drop, R: Print>(
    rt: &R,
    desk: &Desk<M>,
    pass: &mut Pass<M>,
    note: Note<M>,
) -> Result<(), Failure>
where
    M::Command: Drop,
    M::Reply: Drop,
    requires pass { desk_of pass.old ≡ identity desk.now }
    requires note { desk_of_note note ≡ identity desk.now }
    ensures { desk_of pass.new ≡ identity desk.now }
{
    if desk.learn(pass, note).is_err() {
        return Err(Failure::Worn);
    }
    look(rt, desk, pass)
}

// Returns a list of the two passes of a desk, or `None` if memory runs out.
fn list_of<M: Followed + Drop>(alloc: Global, one: Pass<M>, two: Pass<M>) -> Option<Passes<M>>
where
    M::Command: Drop,
    M::Reply: Drop,
    ensures { IfSome result (λ passes. passes ≡ one ∷ two ∷ []) }
{
    let passes = vec![in alloc; one, two].ok()?;
    Some(Passes::<M>::of(passes))
}

// Closes the desk with these passes. Prints the machine's position and the row of a subscription, or why the desk stays open.
fn close<M: Followed + Drop, R: Print>(
    rt: &R,
    alloc: Global,
    desk: Desk<M>,
    passes: Passes<M>,
    sub: usize,
) -> Result<(), Failure>
where
    M::Command: Drop,
    M::Reply: Drop,
    requires { AllByRecursion (λ p. desk_of p ≡ identity desk) passes }
{
    let room = match AccountRoom::new(alloc) {
        Ok(room) => room,
        Err(fault) => return tell_fault(rt, fault),
    };
    match desk.close_into(room, passes) {
        Ok(closed) => tell_closed(rt, &closed, sub),
        Err(stop) => tell_fault(rt, stop.fault),
    }
}

// Prints the machine's position, and the row of a subscription.
fn tell_closed<M: Followed, R: Print>(
    rt: &R,
    closed: &Closed<M>,
    sub: usize,
) -> Result<(), Failure> {
    let Some(row) = closed.account.get(sub) else {
        return Ok(());
    };
    let position = closed.machine.position();
    tell(
        rt,
        &[
            ("closed: position ", u128::from(position)),
            (", raises ", u128::from(row.raises)),
            (", takes ", u128::from(row.takes)),
        ],
        if row.pending {
            ", pending true\n"
        } else {
            ", pending false\n"
        },
    )
}
