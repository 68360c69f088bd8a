//! Seats: a pass at its desk, for the calls of one thread.

ghost use Rattle.std.specs.Prelude.{◌≡◌, ◌^◌, ◌<◌, IfOk, IfErr};
ghost use Rattle.desk.specs.Desk.{identity};
ghost use Rattle.desk.specs.Pass.{desk_of};
ghost use Rattle.ds_machine.specs.Says.{IsReplyTo};
ghost use Rattle.desk_store.specs.Called.{FoundWorn, MadeCall};
ghost use Rattle.desk_store.specs.Record.{pass_record};
ghost use Rattle.desk_store.specs.Seat.{IsSameSeat, seat_of};

use desk::{Answer, Desk, DeskFault, Pass};
use ds_machine::{Command, Reply};
use ds_store::Store;
use std::marker::Model;
use std::sync::Wait;

/// A borrowed pass with its desk and what its calls wait by. Other passes may call the desk meanwhile.
#[derive(Drop)]
pub struct Seat<'a, W> {
    rt: &'a W,
    desk: &'a Desk<Box<Store>>,
    pass: &'a mut Pass<Box<Store>>,
}

impl<'a, W> Model for Seat<'a, W> {
    ghost use Rattle.std.specs.Prelude.{◌≡◌};
    ghost use Rattle.desk.specs.Desk.{identity};
    ghost use Rattle.desk.specs.Pass.{desk_of};
    ghost use Rattle.desk_store.specs.Record.{pass_record};
    ghost use Rattle.desk_store.specs.Seat.{SeatRecord, seat_of};

    ghost Value = { SeatRecord };

    ghost view = { λ s. seat_of s.pass.ghost_name (pass_record s.pass.now) };

    ghost invariant = { λ s. desk_of s.pass.now ≡ identity s.desk.now };
}

impl<'a, W> Seat<'a, W> {
    /// Returns a seat of the pass at its desk. After `leave`, the pass has all that the seat saw and called.
    pub fn new(rt: &'a W, desk: &'a Desk<Box<Store>>, pass: &'a mut Pass<Box<Store>>) -> Seat<'a, W>
        requires { desk_of pass.old ≡ identity desk.now }
        ensures { result ≡ seat_of pass.entry.ghost_name (pass_record pass.old) }
    {
        Seat { rt, desk, pass }
    }

    /// Returns the pass, with all that the seat saw and called.
    pub fn leave(self) -> &'a mut Pass<Box<Store>>
        ensures { seat_of result.ghost_name (pass_record result.now) ≡ self.entry }
    {
        let Seat {
            rt: _rt,
            desk: _desk,
            pass,
        } = self;
        pass
    }

    /// Returns the runtime by which the calls wait.
    pub fn rt(&self) -> &'a W {
        self.rt
    }
}

impl<'a, W: Wait> Seat<'a, W> {
    /// Waits for its turn, and then sends a command to the desk's store. The reply fits the command, and the call is at `place` in the
    /// history. The pass has then seen everything up to there. Refuses as Worn if no place below 2^62 is left, without a call.
    pub fn ask(&mut self, command: Command) -> Result<Answer<Reply>, DeskFault>
        ensures same { IsSameSeat self.old self.new }
        ensures called { IfOk result (λ a. MadeCall self.old.pass self.new.pass command a.reply a.place) }
        ensures fits { IfOk result (λ a. IsReplyTo command a.reply) }
        ensures place { IfOk result (λ a. a.place < 2 ^ 62) }
        ensures worn { IfErr result (FoundWorn self.old.pass self.new.pass) }
    {
        self.desk.call(self.rt, self.pass, command)
    }
}
