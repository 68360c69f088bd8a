//! A row, step by step.

ghost use Rattle.test_threads.specs.World.{IsWorld};

use crate::closing::{close_world, tell_end};
use crate::rows::{ROWS, Row, Step};
use crate::steps::{bring_up, call, exchange, look, start_many, take, tell_label};
use crate::world::World;
use std::alloc::Global;
use std::sync::Wait;
use test_kit::Failure;

/// Plays all rows.
pub(crate) fn play_rows<R: Print + Wait>(rt: &R, alloc: Global) -> Result<(), Failure> {
    for row in &ROWS {
        play(rt, alloc, row)?;
    }
    Ok(())
}

// Plays the steps of a row at two new stores, closes their desks, and prints the comparison at the row's end.
fn play<R: Print + Wait>(rt: &R, alloc: Global, row: &Row) -> Result<(), Failure> {
    let Some(mut world) = World::new(alloc, row) else {
        return Err(Failure::NoRoom);
    };
    let taken = take_steps(rt, alloc, &mut world, row.steps);
    let end = close_world(alloc, world, row.pattern);
    match taken {
        Ok(()) => tell_end(rt, row.end, &end),
        Err(failure) => Err(failure),
    }
}

fn take_steps<R: Print + Wait>(
    rt: &R,
    alloc: Global,
    world: &mut World,
    steps: &[Step],
) -> Result<(), Failure>
    requires { IsWorld world.old }
    ensures { IsWorld world.new }
{
    for step in steps {
        take_step(rt, alloc, world, *step)?;
    }
    Ok(())
}

fn take_step<R: Print + Wait>(
    rt: &R,
    alloc: Global,
    world: &mut World,
    step: Step,
) -> Result<(), Failure>
    requires { IsWorld world.old }
    ensures { IsWorld world.new }
{
    let World {
        first,
        second,
        follower,
        from,
    } = world;
    match step {
        Step::Ask(asked) => call(rt, alloc, &first.desk, &mut first.caller, asked),
        Step::AskSecond(asked) => call(rt, alloc, &second.desk, &mut second.caller, asked),
        Step::StartMany(low, high) => {
            start_many(rt, alloc, &first.desk, &mut first.caller, low, high)
        }
        Step::Look => look(rt, &first.desk, &mut first.caller),
        Step::Refresh(limit) => {
            bring_up(rt, alloc, &first.desk, &mut first.reader, follower, limit)
        }
        Step::Take => take(rt, &first.desk, &mut first.reader, follower),
        Step::TellLabel(name) => tell_label(rt, follower, name),
        Step::Lose => {
            follower.lose();
            Ok(())
        }
        Step::Give => exchange(rt, first, second, from),
        Step::GiveBack => exchange(rt, second, first, &mut None),
        Step::Forget => {
            *from = None;
            Ok(())
        }
    }
}
