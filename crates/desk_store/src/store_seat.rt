//! Seats at any desk whose machine holds a store.

ghost use Rattle.std.specs.Prelude.{◌≡◌, ◌<◌, ◌^◌, ℕ, true, IfOk, IfErr};
ghost use Rattle.ds_machine.specs.declared.command.Command.TheVariants as commands;
ghost use Rattle.ds_machine.specs.declared.reply.Reply.TheVariants.{Subscribed, Checked};
ghost use Rattle.desk_store.specs.Called.{MadeCall};
ghost use Rattle.desk_store.specs.CallFaults.{FailsAsking};
ghost use Rattle.desk_store.specs.Seat.{IsSameSeat, SeatRecord};

use crate::call_fault::CallFault;
use crate::questions::Shown;
use crate::seat::Seat;
use ds_pattern::Query;
use std::sync::Wait;

/// A seat at a desk whose machine holds a store. `seat` is the store's part of what its pass saw and called.
pub trait StoreSeat {
    ghost seat: { Self → SeatRecord };

    /// Subscribes with INITIAL, in place of any subscription of this number. Returns the new stamp.
    fn subscribe(&mut self, sub: u32, query: Query) -> Result<u64, CallFault>
        ensures same { IsSameSeat (seat self.old) (seat self.new) }
        ensures told { IfOk result (λ stamp. (owed place : ℕ)
            × MadeCall (seat self.old).pass (seat self.new).pass (commands.Subscribe sub query true true) (Subscribed stamp owed) place) }
        ensures fault { IfErr result (FailsAsking (seat self.old).pass (seat self.new).pass (commands.Subscribe sub query true true)) };

    /// Checks the subscription. Returns at most `max` items that it hasn't been shown.
    fn check(&mut self, sub: u32, max: u32) -> Result<Shown, CallFault>
        ensures same { IsSameSeat (seat self.old) (seat self.new) }
        ensures told { IfOk result (λ s.
            MadeCall (seat self.old).pass (seat self.new).pass (commands.Check sub max) (Checked s.items s.before s.after) s.place) }
        ensures place { IfOk result (λ s. s.place < 2 ^ 62) }
        ensures fault { IfErr result (FailsAsking (seat self.old).pass (seat self.new).pass (commands.Check sub max)) };
}

impl<'a, W: Wait> StoreSeat for Seat<'a, W> {
    ghost seat = { λ s. s };

    fn subscribe(&mut self, sub: u32, query: Query) -> Result<u64, CallFault> {
        Seat::subscribe(self, sub, query)
    }

    fn check(&mut self, sub: u32, max: u32) -> Result<Shown, CallFault> {
        Seat::check(self, sub, max)
    }
}
