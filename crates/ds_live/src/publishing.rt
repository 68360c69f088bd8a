//! The turns of publishers.

ghost use Rattle.std.specs.Prelude.{◌≡◌, ◌<◌, IfErr, OnOk};
ghost use Rattle.desk.specs.Desk.{identity};
ghost use Rattle.desk.specs.Pass.{desk_of};
ghost use Rattle.ds_machine.specs.declared.refusal.Refusal.{Refusal};
ghost use Rattle.desk_store.specs.Called.{IsAccepted};
ghost use Rattle.desk_store.specs.CallFaults.{FailsAsking, TellsRefusal};
ghost use Rattle.desk_store.specs.Record.{pass_record as seen};
ghost use Rattle.ds_live.specs.Commands.{publisher_number, publisher_label};
ghost use Rattle.ds_live.specs.Turns.{HasCalled, SeatHasCalled, WasAccepted};

use crate::commands::{change, label};
use desk::{Desk, Pass};
use desk_store::{CallFault, Seat};
use ds_machine::{Command, Reply};
use ds_store::Store;
use std::sync::Wait;

/// Publishes the label of publisher `index`, 0 to 7, as RS.
pub fn publish_label<W: Wait>(
    rt: &W,
    desk: &Desk<Box<Store>>,
    pass: &mut Pass<Box<Store>>,
    index: u32,
) -> Result<(), CallFault>
    requires of_desk { desk_of pass.old ≡ identity desk.now }
    requires index { index < 8 }
    ensures stays { desk_of pass.new ≡ desk_of pass.old }
    ensures called { HasCalled (seen pass.old) (seen pass.new) }
    ensures accepted { OnOk result (WasAccepted (seen pass.old) (seen pass.new) (publisher_label index)) }
    ensures fault { IfErr result (FailsAsking (seen pass.old) (seen pass.new) (publisher_label index)) }
{
    let mut seat = Seat::new(rt, desk, pass);
    let told = ask_for_change(&mut seat, label(index));
    let _pass = seat.leave();
    told
}

/// Takes a publisher's turn: overwrites its number.
pub(crate) fn publish<W: Wait>(
    rt: &W,
    desk: &Desk<Box<Store>>,
    pass: &mut Pass<Box<Store>>,
    index: u32,
    turn: u32,
) -> Result<(), CallFault>
    requires of_desk { desk_of pass.old ≡ identity desk.now }
    requires index { index < 8 }
    ensures stays { desk_of pass.new ≡ desk_of pass.old }
    ensures called { HasCalled (seen pass.old) (seen pass.new) }
    ensures accepted { OnOk result (WasAccepted (seen pass.old) (seen pass.new) (publisher_number index turn)) }
    ensures fault { IfErr result (FailsAsking (seen pass.old) (seen pass.new) (publisher_number index turn)) }
{
    let mut seat = Seat::new(rt, desk, pass);
    let told = ask_for_change(&mut seat, change(index, turn));
    let _pass = seat.leave();
    told
}

// Sends one command. Fails if the store refuses it.
fn ask_for_change<W: Wait>(seat: &mut Seat<'_, W>, command: Command) -> Result<(), CallFault>
    ensures called { SeatHasCalled seat.old seat.new }
    ensures accepted { OnOk result (WasAccepted seat.old.pass seat.new.pass command) }
    ensures fault { IfErr result (FailsAsking seat.old.pass seat.new.pass command) }
{
    let answer = seat.ask(command)?;
    accepted(&answer.reply)
}

// Fails with the store's refusal, if the reply is one.
fn accepted(reply: &Reply) -> Result<(), CallFault>
    ensures accepted { OnOk result (IsAccepted reply.now) }
    ensures refused { IfErr result (λ fault. (refusal : Refusal) × (reply.now ≡ Reply.Refused refusal) × TellsRefusal refusal fault) }
{
    match reply {
        Reply::Refused(refusal) => Err(CallFault::from(*refusal)),
        _ => Ok(()),
    }
}
