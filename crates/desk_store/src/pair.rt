//! Seats: a pass at its desk of RS and its store, for the calls of one thread.

ghost use Rattle.std.specs.Prelude.{◌≡◌, ◌^◌, ◌<◌, false, IfOk, IfErr};
ghost use Rattle.desk.specs.Desk.{identity};
ghost use Rattle.desk.specs.Pass.{desk_of};
ghost use Rattle.ds_machine.specs.Says.{IsReplyTo};
ghost use Rattle.desk_store.specs.Called.{FoundWorn, MadeCall};
ghost use Rattle.desk_store.specs.Seat.{IsSameSeat, seat_of};
ghost use Rattle.rs_store.specs.ByRs.{is_by_rs};
ghost use Rattle.desk_store.specs.PairRecord.{pair_record};

use desk::{Answer, Desk, DeskFault, Pass};
use ds_machine::{Command, Reply};
use rs_store::{RsCommand, RsReply, RsStore, pairs_take_turns};
use std::marker::Model;
use std::sync::Wait;

/// A borrowed pass with its desk and what its calls wait by. It queries the store. Contracts see the store's part of what the pass saw
/// and called.
#[derive(Drop)]
pub struct PairSeat<'a, W> {
    rt: &'a W,
    desk: &'a Desk<Box<RsStore>>,
    pass: &'a mut Pass<Box<RsStore>>,
}

impl<'a, W> Model for PairSeat<'a, W> {
    ghost use Rattle.std.specs.Prelude.{◌≡◌};
    ghost use Rattle.desk.specs.Desk.{identity};
    ghost use Rattle.desk.specs.Pass.{desk_of};
    ghost use Rattle.desk_store.specs.Seat.{SeatRecord, seat_of};
    ghost use Rattle.desk_store.specs.PairRecord.{pair_record};

    ghost Value = { SeatRecord };

    ghost view = { λ s. seat_of s.pass.ghost_name (pair_record s.pass.now) };

    ghost invariant = { λ s. desk_of s.pass.now ≡ identity s.desk.now };
}

impl<'a, W> PairSeat<'a, W> {
    /// Returns a seat of the pass at its desk. After `leave`, the pass has all that the seat saw and called.
    pub fn new(
        rt: &'a W,
        desk: &'a Desk<Box<RsStore>>,
        pass: &'a mut Pass<Box<RsStore>>,
    ) -> PairSeat<'a, W>
        requires { desk_of pass.old ≡ identity desk.now }
        ensures { result ≡ seat_of pass.entry.ghost_name (pair_record pass.old) }
    {
        PairSeat { rt, desk, pass }
    }

    /// Returns the pass, with all that the seat saw and called.
    pub fn leave(self) -> &'a mut Pass<Box<RsStore>>
        ensures { seat_of result.ghost_name (pair_record result.now) ≡ self.entry }
    {
        let PairSeat {
            rt: _rt,
            desk: _desk,
            pass,
        } = self;
        pass
    }
}

impl<'a, W: Wait> PairSeat<'a, W> {
    // Waits for its turn, and then sends a client's command that isn't in RS's name. The reply is the store's. The call is at the second
    // number returned.
    pub(crate) fn ask(&mut self, command: Command) -> Result<(Reply, u64), DeskFault>
        requires { is_by_rs command ≡ false }
        ensures same { IsSameSeat self.old self.new }
        ensures called { IfOk result (λ a. MadeCall self.old.pass self.new.pass command a.0 a.1) }
        ensures fits { IfOk result (λ a. IsReplyTo command a.0) }
        ensures place { IfOk result (λ a. a.1 < 2 ^ 62) }
        ensures worn { IfErr result (FoundWorn self.old.pass self.new.pass) }
    {
        let Answer {
            reply,
            place,
            owed: _owed,
            raised: _raised,
        } = self.desk.call(self.rt, self.pass, RsCommand::Ask(command))?;
        pairs_take_turns();
        match reply {
            RsReply::Replied(reply) => Ok((reply, place)),
            _ => unreachable!(),
        }
    }
}
