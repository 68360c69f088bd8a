//! Seats at any desk whose machine holds a store, for every command of a client.

ghost use Rattle.std.specs.Prelude.{◌≡◌, ◌<◌, ◌^◌, false, IfOk, IfErr};
ghost use Rattle.ds_machine.specs.Says.{IsReplyTo};
ghost use Rattle.desk_store.specs.Called.{FoundWorn, MadeCall};
ghost use Rattle.desk_store.specs.Seat.{IsSameSeat, SeatRecord};
ghost use Rattle.rs_store.specs.ByRs.{is_by_rs};

use crate::pair::PairSeat;
use crate::seat::Seat;
use desk::{Answer, DeskFault};
use ds_machine::{Command, Reply};
use std::sync::Wait;

/// A seat at a desk whose machine holds a store: `Seat` or `PairSeat`. `seat` is the store's part of what its pass saw and called.
pub trait ClientSeat {
    ghost seat: { Self → SeatRecord };

    /// Waits for its turn, and then sends a command that isn't in RS's name. Returns the store's reply, which fits the command, and the
    /// place of the call in the history. Refuses as Worn if no place below 2^62 is left, without a call.
    fn send(&mut self, command: Command) -> Result<(Reply, u64), DeskFault>
        requires { is_by_rs command ≡ false }
        ensures same { IsSameSeat (seat self.old) (seat self.new) }
        ensures called { IfOk result (λ a. MadeCall (seat self.old).pass (seat self.new).pass command a.0 a.1) }
        ensures fits { IfOk result (λ a. IsReplyTo command a.0) }
        ensures place { IfOk result (λ a. a.1 < 2 ^ 62) }
        ensures worn { IfErr result (FoundWorn (seat self.old).pass (seat self.new).pass) };
}

impl<'a, W: Wait> ClientSeat for Seat<'a, W> {
    ghost seat = { λ s. s };

    fn send(&mut self, command: Command) -> Result<(Reply, u64), DeskFault> {
        let Answer {
            reply,
            place,
            owed: _owed,
            raised: _raised,
        } = self.ask(command)?;
        Ok((reply, place))
    }
}

impl<'a, W: Wait> ClientSeat for PairSeat<'a, W> {
    ghost seat = { λ s. s };

    fn send(&mut self, command: Command) -> Result<(Reply, u64), DeskFault> {
        self.ask(command)
    }
}
