//! A desk with two passes.

ghost use Rattle.std.specs.Prelude.{◌≡◌, IfSome};
ghost use Rattle.desk.specs.Desk.{identity};
ghost use Rattle.desk.specs.Pass.{desk_of};

use crate::followed::Followed;
use desk::{Desk, Pass};
use std::alloc::Global;

/// A desk with its two passes.
#[derive(Drop)]
pub(crate) struct Table<D, P> {
    pub desk: D,
    pub one: P,
    pub two: P,
}

/// Opens a desk with this first place over a new machine that begins at this position. Returns `None` if memory runs out.
pub(crate) fn open_table<M: Followed + Drop>(
    alloc: Global,
    place: u64,
    position: u64,
) -> Option<Table<Desk<M>, Pass<M>>>
where
    M::Command: Drop,
    M::Reply: Drop,
    ensures one { IfSome result (λ table. desk_of table.one ≡ identity table.desk) }
    ensures two { IfSome result (λ table. desk_of table.two ≡ identity table.desk) }
{
    let machine = M::begin_at(alloc, position)?;
    let Ok((desk, mut passes)) = Desk::<M>::open(alloc, machine, 2, place) else {
        return None;
    };
    let two = passes.pop().unwrap();
    let one = passes.pop().unwrap();
    Some(Table { desk, one, two })
}
