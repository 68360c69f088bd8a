//! The steps of a desk's passes.

ghost use Rattle.std.specs.Prelude.{◌≡◌};
ghost use Rattle.desk.specs.Desk.{identity};
ghost use Rattle.desk.specs.Pass.{desk_of};
ghost use Rattle.desk_store.specs.Record.{pass_record};
ghost use Rattle.desk_store.specs.KeepsUp.{KeepsUpWith};
ghost use Rattle.test_threads.specs.World.{IsSide};

use crate::asked::Asked;
use crate::tell::{tell, tell_fault};
use crate::world::Side;
use desk::{Desk, Pass};
use desk_store::{
    ExchangeFault, Exchanged, Follower, Fresh, RefreshFault, Seat, exchange_once, refresh,
};
use ds_feed::Cursor;
use ds_live::LiveFault;
use ds_machine::Reply;
use ds_names::Name;
use ds_store::Store;
use std::alloc::Global;
use std::sync::Wait;
use test_kit::Failure;

/// Sends a command by a pass, and prints the store's refusal, if any.
pub(crate) fn call<R: Print + Wait>(
    rt: &R,
    alloc: Global,
    desk: &Desk<Box<Store>>,
    pass: &mut Pass<Box<Store>>,
    asked: Asked,
) -> Result<(), Failure>
    requires { desk_of pass.old ≡ identity desk.now }
    ensures { desk_of pass.new ≡ identity desk.now }
{
    let Some(command) = asked.command(alloc) else {
        return Err(Failure::NoRoom);
    };
    match desk.call(rt, pass, command) {
        Ok(answer) => tell_refusal(rt, &answer.reply),
        Err(fault) => tell_fault(rt, LiveFault::Desk(fault)),
    }
}

// Prints a store's refusal, if the reply is one.
fn tell_refusal(rt: &impl Print, reply: &Reply) -> Result<(), Failure> {
    if let Reply::Refused(refusal) = reply {
        println!(rt; "refused: {refusal}")?;
    }
    Ok(())
}

/// Publishes the labels of drivers, as RS, from the first number up to below the second. Each name has a letter and three digits.
pub(crate) fn start_many<R: Print + Wait>(
    rt: &R,
    alloc: Global,
    desk: &Desk<Box<Store>>,
    pass: &mut Pass<Box<Store>>,
    low: u32,
    high: u32,
) -> Result<(), Failure>
    requires { desk_of pass.old ≡ identity desk.now }
    ensures { desk_of pass.new ≡ identity desk.now }
{
    for number in low..high {
        let name = [
            b'n',
            b'0' + (number / 100 % 10) as u8,
            b'0' + (number / 10 % 10) as u8,
            b'0' + (number % 10) as u8,
        ];
        call(rt, alloc, desk, pass, Asked::Start(&name, 1, 17))?;
    }
    Ok(())
}

/// Takes the notices of server 0, and prints them with the first place after the history that the pass has then seen.
pub(crate) fn take<R: Print>(
    rt: &R,
    desk: &Desk<Box<Store>>,
    pass: &mut Pass<Box<Store>>,
    follower: &Follower,
) -> Result<(), Failure>
    requires of_desk { desk_of pass.old ≡ identity desk.now }
    requires keeps { KeepsUpWith (pass_record pass.old) follower.now }
    ensures of_desk { desk_of pass.new ≡ identity desk.now }
    ensures keeps { KeepsUpWith (pass_record pass.new) follower.now }
{
    match desk.take(pass, 0) {
        Ok(taken) => tell(
            rt,
            &[
                ("taken", u128::from(taken.bits)),
                ("floor", u128::from(taken.floor)),
            ],
        ),
        Err(fault) => tell_fault(rt, LiveFault::Desk(fault)),
    }
}

/// Refreshes the follower by at most `limit` calls, and prints the result, and the number of keys in its map.
pub(crate) fn bring_up<R: Print + Wait>(
    rt: &R,
    alloc: Global,
    desk: &Desk<Box<Store>>,
    pass: &mut Pass<Box<Store>>,
    follower: &mut Follower,
    limit: u32,
) -> Result<(), Failure>
    requires of_desk { desk_of pass.old ≡ identity desk.now }
    requires keeps { KeepsUpWith (pass_record pass.old) follower.old }
    ensures of_desk { desk_of pass.new ≡ identity desk.now }
    ensures keeps { KeepsUpWith (pass_record pass.new) follower.new }
{
    let mut seat = Seat::new(rt, desk, pass);
    let fresh = refresh(&mut seat, alloc, follower, limit);
    let _pass = seat.leave();
    tell_fresh(rt, fresh, limit, follower)
}

// Prints the result of a refresh by `limit` calls, and the number of keys in the map.
fn tell_fresh(
    rt: &impl Print,
    fresh: Result<Fresh, RefreshFault>,
    limit: u32,
    follower: &Follower,
) -> Result<(), Failure> {
    let keys = ("keys", follower.map().held().len() as u128);
    match fresh {
        Ok(Fresh::UpTo(place)) => tell(rt, &[("up to", u128::from(place)), keys]),
        Ok(Fresh::More) => tell(rt, &[("more, limit", u128::from(limit)), keys]),
        Err(fault) => {
            tell_fault(rt, LiveFault::from(fault))?;
            tell(rt, &[keys])
        }
    }
}

/// Prints the generation of a label's endpoint in the map, or 0 if it has none.
pub(crate) fn tell_label(rt: &impl Print, follower: &Follower, name: &[u8]) -> Result<(), Failure> {
    let generation = match Name::read(name) {
        Ok(name) => match follower.map().label(&name) {
            Some(endpoint) => endpoint.generation().number(),
            None => 0,
        },
        Err(_) => 0,
    };
    tell(rt, &[("generation", u128::from(generation))])
}

/// Prints how far the pass sees the desk's history go.
pub(crate) fn look<R: Print>(
    rt: &R,
    desk: &Desk<Box<Store>>,
    pass: &mut Pass<Box<Store>>,
) -> Result<(), Failure>
    requires { desk_of pass.old ≡ identity desk.now }
    ensures { desk_of pass.new ≡ identity desk.now }
{
    tell(rt, &[("front", u128::from(desk.front(pass)))])
}

/// Makes an exchange from one store to the other, and prints the result. `from` becomes the cursor of the next exchange, or `None` after a
/// fault.
pub(crate) fn exchange<R: Print + Wait>(
    rt: &R,
    a: &mut Side,
    b: &mut Side,
    from: &mut Option<Cursor>,
) -> Result<(), Failure>
    requires { IsSide a.old × IsSide b.old }
    ensures sides { IsSide a.new × IsSide b.new }
    ensures readers { (a.new.reader ≡ a.old.reader) × (b.new.reader ≡ b.old.reader) }
{
    match exchange_at(rt, &a.desk, &mut a.caller, &b.desk, &mut b.caller, *from) {
        Ok(exchanged) => {
            *from = Some(exchanged.cursor);
            tell_exchanged(rt, exchanged)
        }
        Err(fault) => {
            *from = None;
            tell_fault(rt, LiveFault::from(fault))
        }
    }
}

// Makes an exchange from the first desk's store to the second's.
fn exchange_at<W: Wait>(
    rt: &W,
    first: &Desk<Box<Store>>,
    pass: &mut Pass<Box<Store>>,
    second: &Desk<Box<Store>>,
    other: &mut Pass<Box<Store>>,
    from: Option<Cursor>,
) -> Result<Exchanged, ExchangeFault>
    requires first { desk_of pass.old ≡ identity first.now }
    requires second { desk_of other.old ≡ identity second.now }
    ensures stays { desk_of pass.new ≡ desk_of pass.old }
    ensures other_stays { desk_of other.new ≡ desk_of other.old }
{
    let mut here = Seat::new(rt, first, pass);
    let mut there = Seat::new(rt, second, other);
    let told = exchange_once(rt, &mut here, &mut there, from);
    let _other = there.leave();
    let _pass = here.leave();
    told
}

// Prints the result of an exchange.
fn tell_exchanged(rt: &impl Print, exchanged: Exchanged) -> Result<(), Failure> {
    tell(
        rt,
        &[
            ("done", exchanged.done),
            ("taken", exchanged.taken),
            ("more", u128::from(exchanged.more)),
            ("position", u128::from(exchanged.cursor.position)),
        ],
    )
}
