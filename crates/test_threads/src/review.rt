//! Compares each map with a store that gets the history up to the map's place.

use crate::asked::command_of;
use crate::line::Sizes;
use crate::mark::mark_of_store;
use crate::watch::{REFRESHED, Watch};
use ds_store::Store;
use std::alloc::Global;
use std::sync::Wait;
use std::sync::atomic::AtomicU32;
use std::thread::Threads;
use test_kit::{Crew, Kept, Said, run_crew};

/// The result of the comparison.
#[derive(Clone, Copy)]
pub(crate) struct Review {
    /// Whether each map that was brought up to date had what the store held at the map's place.
    pub equal: bool,
    /// Whether each follower was brought up to date at least once.
    pub all: bool,
}

impl Review {
    /// Returns the text that is printed.
    pub(crate) fn verdict(self) -> &'static str {
        match (self.equal, self.all) {
            (true, true) => "each map is what the store held",
            (true, false) => "a follower was never brought up to date",
            (false, _) => "a map differs from what the store held",
        }
    }
}

/// Lets threads change and follow a new store, and compares the maps. Returns `None` if memory runs out.
pub(crate) fn watch_and_compare<R: Threads + Wait + Sync>(
    rt: &R,
    alloc: Global,
    sizes: Sizes,
) -> Option<Review> {
    let threads = sizes.writers.checked_add(sizes.followers)?;
    let store = new_store(alloc)?;
    let watch = Watch {
        sizes,
        begun: AtomicU32::new(0),
    };
    let crew = run_crew(rt, alloc, store, threads, watch)?;
    match compare_each(alloc, &crew) {
        Some(equal) => Some(Review {
            equal,
            all: are_all_refreshed(&crew, sizes.followers),
        }),
        None => None,
    }
}

// Returns an empty store, on the heap, since each turn takes it out of the desk's slot and puts it back. `None` if memory runs out.
fn new_store(alloc: Global) -> Option<Box<Store>> {
    let store = Store::open(alloc, 1, 0, 256).ok()?;
    Box::new(alloc, store).ok()
}

// Sends one store the writers' calls in the order of their places, and compares each map with it at the map's place.
fn compare_each(alloc: Global, crew: &Crew<Box<Store>>) -> Option<bool> {
    let mut alone = new_store(alloc)?;
    let mut equal = true;
    let mut given = 0;
    for view in &crew.said {
        if view.turn == REFRESHED {
            given = catch_up(&mut alone, &crew.said, given, view.place)?;
            let mark = mark_of_store(alloc, &alone)?;
            equal &= view.kept == Kept::Reply { mark, owed: 0 };
        }
    }
    Some(equal)
}

// Sends the store the calls from an index on that are below a place. Returns the index of the first call that wasn't sent.
fn catch_up(alone: &mut Store, said: &[Said], from: usize, place: u64) -> Option<usize> {
    for index in from..said.len() {
        let one = &said[index];
        if one.place >= place {
            return Some(index);
        }
        if one.turn != REFRESHED && one.kept != Kept::NoRoom {
            let _reply = alone.apply(command_of(one.seen, one.turn)?);
        }
    }
    Some(said.len())
}

// Returns whether each follower has a map that was brought up to date.
fn are_all_refreshed(crew: &Crew<Box<Store>>, followers: u32) -> bool {
    let mut seen = 0u64;
    for one in &crew.said {
        if one.turn == REFRESHED {
            seen |= 1 << (one.seen % 64);
        }
    }
    seen.count_ones() >= followers
}
