//! The desk of a store, with the passes that have no seat.

ghost use Rattle.std.proofs.Props.{props};
ghost use Rattle.std.specs.Arc.{arc_value};
ghost use Rattle.std.specs.List.{AllByRecursion};
ghost use Rattle.c_desk.specs.Fresh.{IsFreshPass};

use desk::{Desk, Pass};
use ds_store::Store;
use std::alloc::Global;
use std::sync::Arc;

/// The desk of a store, with the passes that have no seat.
#[derive(Drop)]
pub struct Board {
    pub(crate) desk: Arc<Desk<Box<Store>>, Global>,
    pub(crate) passes: Vec<Pass<Box<Store>>>,
    ghost fresh: { AllByRecursion (IsFreshPass (arc_value desk)) passes.items } by { Prim.hlevel props },
}

/// Why a seat wasn't opened.
#[derive(Clone, Copy, Drop, PartialEq, Eq)]
pub enum SeatFault {
    /// Every pass of the desk was given to a seat.
    Spent,
    /// Out of memory.
    NoRoom,
}
