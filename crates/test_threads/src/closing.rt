//! The contents of the stores and the map at the end.

ghost use Rattle.test_threads.specs.World.{IsSide, IsWorld};

use crate::asked::query;
use crate::rows::End;
use crate::tell::tell;
use crate::world::{Side, World};
use desk::Passes;
use ds_entry::Items;
use ds_machine::{Command, Reply, Scope};
use ds_store::Store;
use std::alloc::Global;
use test_kit::Failure;

/// The items of the first store, of the follower's map, and of the second store. Each list is `None` if memory ran out.
#[derive(Drop)]
pub(crate) struct Held {
    first: Option<Items>,
    mapped: Option<Items>,
    second: Option<Items>,
}

/// Closes both desks, and returns what the stores hold under the pattern.
pub(crate) fn close_world(alloc: Global, world: World, pattern: &[u8]) -> Held
    requires { IsWorld world }
{
    let World {
        first,
        second,
        follower,
        from: _,
    } = world;
    Held {
        first: held_at_end(alloc, first, pattern),
        mapped: follower.map().held().all(alloc).ok(),
        second: held_at_end(alloc, second, pattern),
    }
}

/// Prints whether the first store held the same as the map or as the second store, as the row's end says. Fails if memory ran out.
pub(crate) fn tell_end(rt: &impl Print, end: End, held: &Held) -> Result<(), Failure> {
    let (Some(first), Some(mapped), Some(second)) = (&held.first, &held.mapped, &held.second) else {
        return Err(Failure::NoRoom);
    };
    match end {
        End::Open => Ok(()),
        End::Map => tell(rt, &[("map equal", u128::from(mapped == first))]),
        End::Stores => tell(rt, &[("stores equal", u128::from(second == first))]),
    }
}

// Closes a desk, and returns what its store holds under the pattern, or `None` if memory runs out.
fn held_at_end(alloc: Global, side: Side, pattern: &[u8]) -> Option<Items>
    requires { IsSide side }
{
    let Side {
        desk,
        caller,
        reader,
    } = side;
    let passes = vec![in alloc; caller, reader].ok()?;
    let mut closed = desk.close(alloc, Passes::<Box<Store>>::of(passes)).ok()?;
    held_under(alloc, &mut closed.machine, pattern)
}

// Returns what a store holds under the pattern, or `None` if memory runs out.
fn held_under(alloc: Global, store: &mut Store, pattern: &[u8]) -> Option<Items> {
    let scope = Scope::Under(query(alloc, pattern)?);
    match store.apply(Command::Snapshot { scope }) {
        Reply::Snapped(snapshot) => Some(snapshot.items),
        _ => None,
    }
}
