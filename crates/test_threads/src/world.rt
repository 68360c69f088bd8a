//! Two desks with their passes.

ghost use Rattle.std.specs.Prelude.{IfSome};
ghost use Rattle.test_threads.specs.World.{IsSide, IsWorld};

use crate::asked::query;
use crate::rows::Row;
use desk::{Desk, Pass};
use desk_store::Follower;
use ds_feed::Cursor;
use ds_store::Store;
use std::alloc::Global;

/// A store's desk with its two passes.
#[derive(Drop)]
pub(crate) struct Side {
    pub desk: Desk<Box<Store>>,
    pub caller: Pass<Box<Store>>,
    pub reader: Pass<Box<Store>>,
}

/// Two desks with two passes each. One pass of each desk calls. The other pass of the first desk refreshes a follower.
#[derive(Drop)]
pub(crate) struct World {
    pub first: Side,
    pub second: Side,
    pub follower: Follower,
    /// The cursor of the next exchange from the first store.
    pub from: Option<Cursor>,
}

impl World {
    /// Opens the desks of a row, over empty stores of incarnations 1 and 2. Returns `None` if memory runs out.
    pub(crate) fn new(alloc: Global, row: &Row) -> Option<World>
        ensures { IfSome result IsWorld }
    {
        let follower = Follower::new(alloc, row.sub, query(alloc, row.pattern)?).ok();
        let sides = open(alloc, 1, row.ring).zip(open(alloc, 2, 256));
        let ((first, second), follower) = sides.zip(follower)?;
        Some(World {
            first,
            second,
            follower,
            from: None,
        })
    }
}

// Opens a desk over an empty store of this incarnation, whose journal keeps `ring` items. Returns `None` if memory runs out.
fn open(alloc: Global, incarnation: u64, ring: u32) -> Option<Side>
    ensures { IfSome result IsSide }
{
    let store = Box::new(alloc, Store::open(alloc, incarnation, 0, ring).ok()?).ok()?;
    let Ok((desk, mut passes)) = Desk::<Box<Store>>::open(alloc, store, 2, 0) else {
        return None;
    };
    let reader = passes.pop().unwrap();
    let caller = passes.pop().unwrap();
    Some(Side {
        desk,
        caller,
        reader,
    })
}
