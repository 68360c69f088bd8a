//! Seats: the right of one thread to call a store at a desk.

ghost use Rattle.std.specs.Prelude.{◌≡◌, None, Some};
ghost use Rattle.std.specs.Arc.{arc_value};
ghost use Rattle.desk.specs.Desk.{identity, opened_with};
ghost use Rattle.desk.specs.Pass.{desk_of, opening};

use desk::{Desk, Pass};
use ds_machine::Reply;
use ds_store::Store;
use std::alloc::Global;
use std::sync::Arc;

/// The right of one thread to call a store at a desk, with the last reply.
#[derive(Drop)]
pub struct Seat {
    pub(crate) desk: Arc<Desk<Box<Store>>, Global>,
    pub(crate) pass: Pass<Box<Store>>,
    pub(crate) last: Option<Reply>,
    ghost at: { desk_of pass ≡ identity (arc_value desk) },
    ghost opened: { opening pass ≡ Some (opened_with (arc_value desk)) },
}

impl Seat {
    // Returns a seat of the pass at its desk, without a reply.
    pub(crate) fn new(desk: Arc<Desk<Box<Store>>, Global>, pass: Pass<Box<Store>>) -> Seat
        requires at { desk_of pass ≡ identity (arc_value desk) }
        requires opened { opening pass ≡ Some (opened_with (arc_value desk)) }
        ensures pass { result.pass ≡ pass }
        ensures desk { result.desk ≡ desk }
        ensures last { result.last ≡ None }
    {
        Seat {
            desk,
            pass,
            last: None,
        }
    }
}
