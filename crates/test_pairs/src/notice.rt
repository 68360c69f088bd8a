//! A follower of labels, and what RS does to them, in one thread.

ghost use Rattle.std.specs.Prelude.{◌≡◌};
ghost use Rattle.desk.specs.Desk.{identity};
ghost use Rattle.desk.specs.Pass.{desk_of};
ghost use Rattle.desk_store.specs.KeepsUp.{KeepsUpWith};
ghost use Rattle.desk_store.specs.PairRecord.{pair_record};

use crate::new_pair::{beginning, new_pair};
use desk::{Desk, Pass, Taken};
use desk_store::{Follower, Fresh, PairSeat, refresh};
use ds_names::{Endpoint, Generation, Kinds, Name};
use ds_pattern::{PatternText, Query};
use rs_core::Event;
use rs_store::{RsCommand, RsStore};
use std::alloc::Global;
use std::sync::Wait;
use test_kit::Failure;

// An event for the service `disk`.
#[derive(Clone, Copy)]
enum Told {
    Up,
    // Its instance of this generation dies, in slot 16.
    Death(u32),
    Tick,
}

// It starts, dies, and starts again after one tick; a tick without actions follows.
const EVENTS: [(Told, u64); 4] = [
    (Told::Up, 0),
    (Told::Death(1), 1),
    (Told::Tick, 2),
    (Told::Tick, 2),
];

/// Lets RS begin, and a follower of labels subscribe. After each event the follower takes its notices and refreshes its map.
pub(crate) fn notice_labels<R: Print + Wait>(rt: &R, alloc: Global) -> Result<(), Failure> {
    let pair = new_pair(alloc).ok_or(Failure::NoRoom)?;
    let Ok((desk, mut passes)) = Desk::<Box<RsStore>>::open(alloc, pair, 2, 0) else {
        return Err(Failure::NoRoom);
    };
    let mut caller = passes.pop().unwrap();
    let mut reader = passes.pop().unwrap();
    let begin = beginning(alloc).ok_or(Failure::NoRoom)?;
    call(rt, &desk, &mut caller, begin)?;
    let query = labels(alloc).ok_or(Failure::NoRoom)?;
    let Ok(mut follower) = Follower::new(alloc, 1, query) else {
        return Err(Failure::NoRoom);
    };
    follow(rt, alloc, &desk, &mut reader, &mut follower)?;
    tell_each(
        rt,
        alloc,
        &desk,
        &mut caller,
        &mut reader,
        &mut follower,
        &EVENTS,
    )
}

// Sends each event. After it the follower takes its notices and refreshes its map.
fn tell_each<R: Print + Wait>(
    rt: &R,
    alloc: Global,
    desk: &Desk<Box<RsStore>>,
    caller: &mut Pass<Box<RsStore>>,
    reader: &mut Pass<Box<RsStore>>,
    follower: &mut Follower,
    steps: &[(Told, u64)],
) -> Result<(), Failure>
    requires caller { desk_of caller.old ≡ identity desk.now }
    requires reader { desk_of reader.old ≡ identity desk.now }
    requires keeps { KeepsUpWith (pair_record reader.old) follower.old }
{
    for step in steps {
        let (told, tick) = *step;
        let event = event_of(told).ok_or(Failure::NoRoom)?;
        call(rt, desk, caller, RsCommand::Tell { event, tick })?;
        take(rt, desk, reader, follower)?;
        follow(rt, alloc, desk, reader, follower)?;
    }
    Ok(())
}

fn event_of(told: Told) -> Option<Event> {
    let name = Name::read(b"disk").ok()?;
    Some(match told {
        Told::Up => Event::Up(name),
        Told::Death(generation) => {
            Event::Death(Endpoint::of(Generation::of(generation)?, 16)?, 1)
        }
        Told::Tick => Event::Tick,
    })
}

// Returns a query of all labels, or `None` if memory runs out.
fn labels(alloc: Global) -> Option<Query> {
    Some(Query {
        text: PatternText::of(alloc, b".*").ok()?,
        kinds: Kinds::of(1)?,
    })
}

/// Sends a command, and prints its place and the bits that it owes and raises.
pub(crate) fn call<R: Print + Wait>(
    rt: &R,
    desk: &Desk<Box<RsStore>>,
    pass: &mut Pass<Box<RsStore>>,
    command: RsCommand,
) -> Result<(), Failure>
    requires { desk_of pass.old ≡ identity desk.now }
    ensures { desk_of pass.new ≡ identity desk.now }
{
    let Ok(answer) = desk.call(rt, pass, command) else {
        return Err(Failure::Worn);
    };
    let place = answer.place;
    let owed = answer.owed;
    let raised = answer.raised;
    println!(rt; "place {place} owed {owed} raised {raised}")?;
    Ok(())
}

// Takes the notices of server 0, and prints them.
fn take<R: Print>(
    rt: &R,
    desk: &Desk<Box<RsStore>>,
    pass: &mut Pass<Box<RsStore>>,
    follower: &Follower,
) -> Result<(), Failure>
    requires of_desk { desk_of pass.old ≡ identity desk.now }
    requires keeps { KeepsUpWith (pair_record pass.old) follower.now }
    ensures of_desk { desk_of pass.new ≡ identity desk.now }
    ensures keeps { KeepsUpWith (pair_record pass.new) follower.now }
{
    match desk.take(pass, 0) {
        Ok(taken) => tell_taken(rt, taken),
        Err(_) => Err(Failure::Worn),
    }
}

fn tell_taken(rt: &impl Print, taken: Taken) -> Result<(), Failure> {
    let bits = taken.bits;
    let floor = taken.floor;
    println!(rt; "bits {bits} floor {floor}")?;
    Ok(())
}

// Refreshes the follower, and prints the place that its map is up to, and the generation of the label.
fn follow<R: Print + Wait>(
    rt: &R,
    alloc: Global,
    desk: &Desk<Box<RsStore>>,
    pass: &mut Pass<Box<RsStore>>,
    follower: &mut Follower,
) -> Result<(), Failure>
    requires of_desk { desk_of pass.old ≡ identity desk.now }
    requires keeps { KeepsUpWith (pair_record pass.old) follower.old }
    ensures of_desk { desk_of pass.new ≡ identity desk.now }
    ensures keeps { KeepsUpWith (pair_record pass.new) follower.new }
{
    let mut seat = PairSeat::new(rt, desk, pass);
    let fresh = refresh(&mut seat, alloc, follower, 8);
    let _pass = seat.leave();
    match fresh {
        Ok(Fresh::UpTo(place)) => tell_label(rt, follower, place),
        Ok(Fresh::More) => Err(Failure::Unexpected),
        Err(_) => Err(Failure::NoRoom),
    }
}

// Prints the generation of the label's endpoint in the map, or 0 if it has none.
fn tell_label(rt: &impl Print, follower: &Follower, place: u64) -> Result<(), Failure> {
    let name = Name::read(b"disk").map_err(|_| Failure::Unexpected)?;
    let generation = match follower.map().label(&name) {
        Some(endpoint) => endpoint.generation().number(),
        None => 0,
    };
    println!(rt; "up to {place} generation {generation}")?;
    Ok(())
}
