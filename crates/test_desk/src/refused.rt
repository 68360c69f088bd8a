//! Desks that can't be opened.

use crate::followed::Followed;
use crate::rows::NO_DESK;
use desk::{Desk, DeskFault};
use std::alloc::Global;
use test_kit::Failure;

/// Tries to open desks that can't be opened. Prints each refusal, and the position of the machine that comes back.
pub(crate) fn refuse_desks<M: Followed + Drop, R: Print>(
    rt: &R,
    alloc: Global,
) -> Result<(), Failure>
where
    M::Command: Drop,
    M::Reply: Drop,
{
    for (passes, place) in &NO_DESK {
        let Some((fault, position)) = refusal_of::<M>(alloc, *passes, *place) else {
            return Err(Failure::NoRoom);
        };
        println!(rt; "no desk: {fault}; the store is at {position}")?;
    }
    Ok(())
}

// Returns the refusal, and the position of the machine that comes back. `None` if memory runs out, or if a desk was opened.
fn refusal_of<M: Followed + Drop>(
    alloc: Global,
    passes: u32,
    place: u64,
) -> Option<(DeskFault, u64)>
where
    M::Command: Drop,
    M::Reply: Drop,
{
    let machine = M::begin_at(alloc, 7)?;
    let stop = Desk::<M>::open(alloc, machine, passes, place).err()?;
    Some((stop.fault, stop.machine.position()))
}
