//! Two passes of one desk, step by step.

ghost use Rattle.std.specs.Prelude.{◌≡◌};
ghost use Rattle.desk.specs.Desk.{identity};
ghost use Rattle.desk.specs.Pass.{desk_of};

use crate::closing::{close_both, close_when_learnt};
use crate::followed::Followed;
use crate::rows::{Row, Step};
use crate::table::open_table;
use crate::tell::{tell, tell_fault};
use desk::{Answer, Desk, Pass, Taken};
use std::alloc::Global;
use std::sync::Wait;
use test_kit::Failure;

/// Opens a desk, plays the row's steps by its two passes, closes the desk, and prints the answers.
pub(crate) fn play<M: Followed + Drop, R: Print + Wait>(
    rt: &R,
    alloc: Global,
    row: &Row,
) -> Result<(), Failure>
where
    M::Command: Drop,
    M::Reply: Drop,
{
    let Some(mut table) = open_table::<M>(alloc, row.place, row.position) else {
        return Err(Failure::NoRoom);
    };
    take_steps(
        rt,
        alloc,
        &table.desk,
        &mut table.one,
        &mut table.two,
        row.steps,
    )?;
    if row.learns {
        close_when_learnt(rt, alloc, table)
    } else {
        close_both(rt, alloc, table, row.sub)
    }
}

fn take_steps<M: Followed, R: Print + Wait>(
    rt: &R,
    alloc: Global,
    desk: &Desk<M>,
    one: &mut Pass<M>,
    two: &mut Pass<M>,
    steps: &[Step],
) -> Result<(), Failure>
where
    M::Command: Drop,
    M::Reply: Drop,
    requires one { desk_of one.old ≡ identity desk.now }
    requires two { desk_of two.old ≡ identity desk.now }
    ensures one { desk_of one.new ≡ identity desk.now }
    ensures two { desk_of two.new ≡ identity desk.now }
{
    for step in steps {
        take_step(rt, alloc, desk, one, two, *step)?;
    }
    Ok(())
}

fn take_step<M: Followed, R: Print + Wait>(
    rt: &R,
    alloc: Global,
    desk: &Desk<M>,
    one: &mut Pass<M>,
    two: &mut Pass<M>,
    step: Step,
) -> Result<(), Failure>
where
    M::Command: Drop,
    M::Reply: Drop,
    requires one { desk_of one.old ≡ identity desk.now }
    requires two { desk_of two.old ≡ identity desk.now }
    ensures one { desk_of one.new ≡ identity desk.now }
    ensures two { desk_of two.new ≡ identity desk.now }
{
    match step {
        Step::Follow(sub) => call(rt, desk, one, M::follow(alloc, sub)),
        Step::Start(label, slot) => call(rt, desk, one, M::start(label, 1, slot)),
        Step::StartBySecond(label, slot) => call(rt, desk, two, M::start(label, 1, slot)),
        Step::Look => look(rt, desk, one),
        Step::Take(server) => take(rt, desk, one, server),
    }
}

// Calls, and prints the answer.
fn call<M: Followed, R: Print + Wait>(
    rt: &R,
    desk: &Desk<M>,
    pass: &mut Pass<M>,
    command: Option<M::Command>,
) -> Result<(), Failure>
where
    M::Command: Drop,
    M::Reply: Drop,
    requires { desk_of pass.old ≡ identity desk.now }
    ensures { desk_of pass.new ≡ identity desk.now }
{
    let Some(command) = command else {
        return Err(Failure::NoRoom);
    };
    match desk.call(rt, pass, command) {
        Ok(answer) => tell_answer::<M, R>(rt, &answer),
        Err(fault) => tell_fault(rt, fault),
    }
}

fn tell_answer<M: Followed, R: Print>(rt: &R, answer: &Answer<M::Reply>) -> Result<(), Failure> {
    tell(rt, &[("place ", u128::from(answer.place))], ": ")?;
    M::tell_reply(rt, &answer.reply)?;
    tell(
        rt,
        &[(", owed ", answer.owed), (", raised ", answer.raised)],
        "\n",
    )
}

/// Looks, and prints the first place after the history that the pass has then seen.
pub(crate) fn look<M: Followed, R: Print>(
    rt: &R,
    desk: &Desk<M>,
    pass: &mut Pass<M>,
) -> Result<(), Failure>
    requires { desk_of pass.old ≡ identity desk.now }
    ensures { desk_of pass.new ≡ identity desk.now }
{
    let front = desk.front(pass);
    tell(rt, &[("front ", u128::from(front))], "\n")
}

// Takes a server's notices, and prints them.
fn take<M: Followed, R: Print>(
    rt: &R,
    desk: &Desk<M>,
    pass: &mut Pass<M>,
    server: u32,
) -> Result<(), Failure>
    requires { desk_of pass.old ≡ identity desk.now }
    ensures { desk_of pass.new ≡ identity desk.now }
{
    match desk.take(pass, server) {
        Ok(taken) => tell_taken(rt, server, taken),
        Err(fault) => tell_fault(rt, fault),
    }
}

fn tell_taken(rt: &impl Print, server: u32, taken: Taken) -> Result<(), Failure> {
    tell(
        rt,
        &[
            ("server ", u128::from(server)),
            (": bits ", u128::from(taken.bits)),
            (", floor ", u128::from(taken.floor)),
        ],
        "\n",
    )
}
