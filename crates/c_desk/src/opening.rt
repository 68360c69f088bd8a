//! Opening a desk, and its seats.

ghost use Rattle.std.specs.Prelude.{◌≡◌, length, ◌<◌, ◌≤◌, IfOk, IfErr, OnOk};
ghost use Rattle.std.specs.Arc.{arc_value};
ghost use Rattle.std.specs.List.{AllByRecursion};
ghost use Rattle.desk.specs.Desk.{first_call, opened_with};
ghost use Rattle.ds_content.specs.Stands.{ContentStands};
ghost use Rattle.ds_feed.specs.Kept.{IsRing};
ghost use Rattle.ds_held.specs.Limits.{larger};
ghost use Rattle.ds_machine.specs.State.{opening};
ghost use Rattle.ds_names.specs.Limits.{last_place};
ghost use Rattle.c_desk.specs.Fresh.{IsFreshPass};
ghost use Rattle.c_desk.specs.Board.{IsBoardRefusal, IsSeatFault, TakesSeat};

use crate::board::{Board, SeatFault};
use crate::seat::Seat;
use desk::{Desk, Pass};
use ds_machine::Refusal;
use ds_store::Store;
use std::alloc::{AllocFailed, Global};
use std::sync::Arc;

impl Board {
    /// Opens a store at a desk of 1 to 64 seats. The first call gets the place 0.
    ///
    /// Refuses another number of seats as TooMany, and then as `Store::open` does. Reports NoRoom last.
    pub fn open(
        alloc: Global,
        incarnation: u64,
        first: u64,
        ring: u32,
        seats: u32,
    ) -> Result<Board, Refusal>
        ensures opened { IfOk result (λ b. ContentStands (opened_with (arc_value b.desk)).value (opening incarnation first ring larger)) }
        ensures places { IfOk result (λ b. first_call (arc_value b.desk) ≡ 0) }
        ensures seats { IfOk result (λ b. length b.passes.items ≡ seats) }
        ensures fits { OnOk result ((0 < seats) × (seats ≤ 64) × IsRing ring × (first ≤ last_place)) }
        ensures refused { IfErr result (λ refusal. IsBoardRefusal refusal first ring seats) }
    {
        if seats == 0 || seats > 64 {
            return Err(Refusal::TooMany);
        }
        let store = Store::open(alloc, incarnation, first, ring)?;
        let Ok(store) = Box::new(alloc, store) else {
            return Err(Refusal::NoRoom);
        };
        match Desk::open(alloc, store, seats, 0) {
            Ok((desk, passes)) => Board::of(alloc, desk, passes.into_vec()),
            Err(_) => Err(Refusal::NoRoom),
        }
    }

    // Returns the desk with its passes. Fails as NoRoom if memory runs out.
    fn of(
        alloc: Global,
        desk: Desk<Box<Store>>,
        passes: Vec<Pass<Box<Store>>>,
    ) -> Result<Board, Refusal>
        requires { AllByRecursion (IsFreshPass desk) passes.items }
        ensures board { IfOk result (λ b. (arc_value b.desk ≡ desk) × (b.passes ≡ passes)) }
        ensures refused { IfErr result (λ refusal. refusal ≡ Refusal.NoRoom) }
    {
        match Arc::new(alloc, desk) {
            Ok(desk) => Ok(Board { desk, passes }),
            Err(AllocFailed { value: _ }) => Err(Refusal::NoRoom),
        }
    }

    /// Gives one of the passes a seat. Refuses as Spent if none is left, and then as NoRoom if memory runs out.
    pub fn seat(&mut self, alloc: Global) -> Result<Box<Seat>, SeatFault>
        ensures desk { self.new.desk ≡ self.old.desk }
        ensures seat { IfOk result (λ s. TakesSeat self.old s.value self.new) }
        ensures refused { IfErr result (λ fault. IsSeatFault fault self.old × (self.new.passes.items ≡ self.old.passes.items)) }
    {
        if self.passes.is_empty() {
            return Err(SeatFault::Spent);
        }
        let Ok(desk) = Arc::try_clone(&self.desk) else {
            return Err(SeatFault::NoRoom);
        };
        let pass = self.passes.pop().unwrap();
        match Box::new(alloc, Seat::new(desk, pass)) {
            Ok(seat) => Ok(seat),
            Err(AllocFailed { value: seat }) => {
                let Seat {
                    desk: _,
                    pass,
                    last: _,
                } = seat;
                self.passes.push_reserved(pass);
                Err(SeatFault::NoRoom)
            }
        }
    }

    /// Returns whether the desk has another owner, such as an open seat.
    pub fn is_shared(&self) -> bool {
        Arc::strong_count(&self.desk) > 1
    }
}
