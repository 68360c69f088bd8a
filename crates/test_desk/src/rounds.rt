//! Long rounds of looks and takes, for measurements from outside.

ghost use Rattle.std.specs.Prelude.{◌≡◌};
ghost use Rattle.desk.specs.Desk.{identity};
ghost use Rattle.desk.specs.Pass.{desk_of};

use crate::followed::Followed;
use crate::new_store::FIRST;
use crate::table::open_table;
use desk::{Desk, Pass};
use history::Machine;
use std::alloc::Global;

/// Looks `count` times how far the history of a desk goes, and returns the sum of the places. `None` if memory runs out.
pub(crate) fn look<M: Followed + Drop>(alloc: Global, count: u32) -> Option<u64>
where
    M::Command: Drop,
    M::Reply: Drop,
{
    let mut table = open_table::<M>(alloc, 0, FIRST)?;
    Some(look_often(&table.desk, &mut table.one, count))
}

fn look_often<M: Machine>(desk: &Desk<M>, pass: &mut Pass<M>, count: u32) -> u64
    requires { desk_of pass.old ≡ identity desk.now }
{
    let mut seen = 0u64;
    for _ in 0..count {
        seen = seen.wrapping_add(desk.front(pass));
    }
    seen
}

/// Takes the notices of a server `count` times, and returns the sum of what it took. `None` if memory runs out.
pub(crate) fn take<M: Followed + Drop>(alloc: Global, count: u32) -> Option<u64>
where
    M::Command: Drop,
    M::Reply: Drop,
{
    let mut table = open_table::<M>(alloc, 0, FIRST)?;
    take_often(&table.desk, &mut table.one, count)
}

fn take_often<M: Machine>(desk: &Desk<M>, pass: &mut Pass<M>, count: u32) -> Option<u64>
    requires { desk_of pass.old ≡ identity desk.now }
{
    let mut bits = 0u64;
    for _ in 0..count {
        let taken = desk.take(pass, 0).ok()?;
        bits = bits.wrapping_add(u64::from(taken.bits));
    }
    Some(bits)
}
