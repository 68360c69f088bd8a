//! Exchanges between RS's store, a copy of it, and a store alone, in one thread.

ghost use Rattle.std.specs.Prelude.{◌≡◌};
ghost use Rattle.desk.specs.Desk.{identity};
ghost use Rattle.desk.specs.Pass.{desk_of};

use crate::new_pair::{beginning, pair_of};
use crate::notice::call;
use desk::{Desk, Pass};
use desk_store::{ClientSeat, PairSeat, Seat, exchange_once};
use ds_entry::{Items, Value};
use ds_feed::Cursor;
use ds_machine::{Command, Reply, Scope};
use ds_names::{Endpoint, Generation, Key, Kind, Name, Version};
use ds_store::Store;
use rs_core::Event;
use rs_store::{RsCommand, RsStore};
use std::alloc::Global;
use std::sync::Wait;
use test_kit::Failure;

/// Opens three desks: of RS and its store, whose journal keeps two items; of a pair in which RS doesn't begin, the copy; and of a store.
/// The output has the places of RS's events, and the result of each exchange.
pub(crate) fn exchange_stores<R: Print + Wait>(rt: &R, alloc: Global) -> Result<(), Failure> {
    let pairs = pair_of(alloc, 1, 2).zip(pair_of(alloc, 2, 256));
    let Some(((first, second), third)) = pairs.zip(new_store(alloc)) else {
        return Err(Failure::NoRoom);
    };
    let Ok((desk, mut passes)) = Desk::<Box<RsStore>>::open(alloc, first, 2, 0) else {
        return Err(Failure::NoRoom);
    };
    let Ok((copy_desk, mut copies)) = Desk::<Box<RsStore>>::open(alloc, second, 1, 0) else {
        return Err(Failure::NoRoom);
    };
    let Ok((store_desk, mut others)) = Desk::<Box<Store>>::open(alloc, third, 1, 0) else {
        return Err(Failure::NoRoom);
    };
    let mut caller = passes.pop().unwrap();
    let mut pass = passes.pop().unwrap();
    let mut copy_pass = copies.pop().unwrap();
    let mut store_pass = others.pop().unwrap();
    let begin = beginning(alloc).ok_or(Failure::NoRoom)?;
    call(rt, &desk, &mut caller, begin)?;
    exchange_at(
        rt,
        &desk,
        &mut caller,
        &mut pass,
        &copy_desk,
        &mut copy_pass,
        &store_desk,
        &mut store_pass,
    )
}

// Exchanges between the three desks, each by a pass of its own. RS's events are the caller's.
fn exchange_at<R: Print + Wait>(
    rt: &R,
    desk: &Desk<Box<RsStore>>,
    caller: &mut Pass<Box<RsStore>>,
    pass: &mut Pass<Box<RsStore>>,
    copy_desk: &Desk<Box<RsStore>>,
    copy_pass: &mut Pass<Box<RsStore>>,
    store_desk: &Desk<Box<Store>>,
    store_pass: &mut Pass<Box<Store>>,
) -> Result<(), Failure>
    requires caller { desk_of caller.old ≡ identity desk.now }
    requires pass { desk_of pass.old ≡ identity desk.now }
    requires copy { desk_of copy_pass.old ≡ identity copy_desk.now }
    requires store { desk_of store_pass.old ≡ identity store_desk.now }
{
    let mut rs = PairSeat::new(rt, desk, pass);
    let mut copy = PairSeat::new(rt, copy_desk, copy_pass);
    let mut store = Seat::new(rt, store_desk, store_pass);
    let cursors = copy_a_restart(rt, desk, caller, &mut rs, &mut copy)?;
    merge_a_label(rt, &mut rs, &mut copy, &mut store, cursors)?;
    tell(rt, desk, caller, Event::Up(name_of(b"eth0")?), 3)?;
    start_at(&mut store, b"eth0", 3, 40)?;
    let _none = give(rt, &mut store, &mut rs, None)?;
    Ok(())
}

fn new_store(alloc: Global) -> Option<Box<Store>> {
    Box::new(alloc, Store::open(alloc, 3, 0, 256).ok()?).ok()
}

// The copy gets the label of `disk` by a page, and by the journal that its instance died and was swept. Then `disk` starts again. Returns
// the cursors of both exchanges.
fn copy_a_restart<R: Print + Wait>(
    rt: &R,
    desk: &Desk<Box<RsStore>>,
    caller: &mut Pass<Box<RsStore>>,
    rs: &mut PairSeat<'_, R>,
    copy: &mut PairSeat<'_, R>,
) -> Result<(Option<Cursor>, Option<Cursor>), Failure>
    requires { desk_of caller.old ≡ identity desk.now }
    ensures { desk_of caller.new ≡ identity desk.now }
{
    tell(rt, desk, caller, Event::Up(name_of(b"disk")?), 0)?;
    let first = give(rt, rs, copy, None)?;
    tell(rt, desk, caller, Event::Death(endpoint_of(1, 16)?, 1), 1)?;
    let second = give(rt, rs, copy, first)?;
    tell(rt, desk, caller, Event::Tick, 2)?;
    Ok((first, second))
}

// The store gets what the copy holds. A label that was published there then reaches RS's store, and from there the copy. Once RS's store
// has sent all to the store too, all hold the same. RS's journal no longer reaches back to the first cursor.
fn merge_a_label<R: Print + Wait>(
    rt: &R,
    rs: &mut PairSeat<'_, R>,
    copy: &mut PairSeat<'_, R>,
    store: &mut Seat<'_, R>,
    cursors: (Option<Cursor>, Option<Cursor>),
) -> Result<(), Failure> {
    let _copied = give(rt, copy, store, None)?;
    start_at(store, b"eth0", 1, 30)?;
    let _merged = give(rt, store, rs, None)?;
    let _followed = give(rt, rs, copy, cursors.1)?;
    compare(rt, rs, copy)?;
    let _returned = give(rt, rs, store, None)?;
    compare(rt, rs, store)?;
    let _none = give(rt, rs, copy, cursors.0)?;
    Ok(())
}

fn name_of(text: &[u8]) -> Result<Name, Failure> {
    Name::read(text).map_err(|_| Failure::Unexpected)
}

fn endpoint_of(generation: u32, slot: u16) -> Result<Endpoint, Failure> {
    let generation = Generation::of(generation).ok_or(Failure::Unexpected)?;
    Endpoint::of(generation, slot).ok_or(Failure::Unexpected)
}

// Tells RS of an event, and prints its place.
fn tell<R: Print + Wait>(
    rt: &R,
    desk: &Desk<Box<RsStore>>,
    caller: &mut Pass<Box<RsStore>>,
    event: Event,
    tick: u64,
) -> Result<(), Failure>
    requires { desk_of caller.old ≡ identity desk.now }
    ensures { desk_of caller.new ≡ identity desk.now }
{
    call(rt, desk, caller, RsCommand::Tell { event, tick })
}

// Publishes a driver's label at the store, where no RS begins, as RS.
fn start_at<W: Wait>(
    store: &mut Seat<'_, W>,
    label: &[u8],
    generation: u32,
    slot: u16,
) -> Result<(), Failure> {
    let endpoint = endpoint_of(generation, slot)?;
    let command = Command::Publish {
        caller: Endpoint::rs(),
        key: Key {
            name: name_of(label)?,
            kind: Kind::Label,
        },
        version: Version {
            epoch: endpoint.generation(),
            seq: 0,
        },
        value: Value::Label(endpoint),
        overwrite: true,
    };
    match store.ask(command) {
        Ok(_answer) => Ok(()),
        Err(_) => Err(Failure::Worn),
    }
}

// Makes an exchange between the stores of two desks, and prints the result. Returns the next cursor; `None` after a fault.
fn give<R: Print + Wait, A: ClientSeat, B: ClientSeat>(
    rt: &R,
    a: &mut A,
    b: &mut B,
    from: Option<Cursor>,
) -> Result<Option<Cursor>, Failure> {
    match exchange_once(rt, a, b, from) {
        Ok(exchanged) => {
            let done = exchanged.done;
            let taken = exchanged.taken;
            let more = u32::from(exchanged.more);
            let position = exchanged.cursor.position;
            println!(rt; "done {done} taken {taken} more {more} position {position}")?;
            Ok(Some(exchanged.cursor))
        }
        Err(fault) => {
            println!(rt; "{fault}")?;
            Ok(None)
        }
    }
}

// Prints whether the stores of two desks hold the same.
fn compare<R: Print, A: ClientSeat, B: ClientSeat>(
    rt: &R,
    a: &mut A,
    b: &mut B,
) -> Result<(), Failure> {
    let (Some(first), Some(second)) = (held(a), held(b)) else {
        return Err(Failure::NoRoom);
    };
    let verdict = if first == second {
        "alike"
    } else {
        "different"
    };
    println!(rt; "{verdict}")?;
    Ok(())
}

// Returns all that the store of a desk holds, or `None` if memory runs out.
fn held<S: ClientSeat>(seat: &mut S) -> Option<Items> {
    match seat.send(Command::Snapshot { scope: Scope::All }) {
        Ok((Reply::Snapped(snapshot), _)) => Some(snapshot.items),
        _ => None,
    }
}
