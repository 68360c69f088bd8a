//! Compares the threads' replies and maps with RS and a store of one thread.

use crate::asked::{Known, command_of};
use crate::line::Sizes;
use crate::mark::{kept_of, mark_of_store};
use crate::new_pair::{LABELS, new_pair};
use crate::watch::{REFRESHED, Watch};
use rs_core::Rs;
use rs_store::RsStore;
use std::alloc::Global;
use std::sync::Wait;
use std::sync::atomic::AtomicU32;
use std::thread::Threads;
use test_kit::{Crew, Kept, Said, run_crew};

/// The result of a comparison with one thread.
#[derive(Clone, Copy)]
pub(crate) struct Review {
    /// The number of calls that the callers made.
    pub calls: u64,
    /// Whether RS and a store of one thread that get the callers' calls in the order of their places give the same replies, and RS knows
    /// the same in the end; and whether a pass that learnt a note has seen as much as the note's pass.
    pub legal: bool,
    /// Whether each map that was brought up to date had what the store held at the map's place.
    pub equal: bool,
    /// Whether each follower was brought up to date at least once.
    pub all: bool,
    /// Whether in each row of the account the raises are the takes, plus one if the bit is pending.
    pub exact: bool,
}

impl Review {
    /// Returns the text that is printed.
    pub(crate) fn verdict(self) -> &'static str {
        if !self.legal {
            return "history not legal";
        }
        if !self.exact {
            return "history legal account wrong";
        }
        match (self.equal, self.all) {
            (true, true) => "history legal account exact maps equal",
            (true, false) => "history legal account exact a follower was never brought up to date",
            (false, _) => "history legal account exact a map differs",
        }
    }
}

/// Lets threads share RS and a new store, and compares them with one thread. Returns `None` if memory runs out.
pub(crate) fn share_and_compare<R: Threads + Wait + Sync>(
    rt: &R,
    alloc: Global,
    sizes: Sizes,
) -> Option<Review> {
    let threads = sizes.callers.checked_add(sizes.followers)?;
    let watch = Watch {
        sizes,
        begun: AtomicU32::new(0),
    };
    let crew = run_crew(rt, alloc, new_pair(alloc)?, threads, watch)?;
    let mut review = Review {
        calls: 0,
        legal: !crew.behind,
        equal: true,
        all: are_all_refreshed(&crew, sizes.followers),
        exact: account_is_exact(&crew),
    };
    let alone = answer_alone(alloc, &crew.said, sizes.followers == 0, &mut review)?;
    review.legal &= match (crew.machine.services(), alone.services()) {
        (Some(shared), Some(single)) => know_the_same(shared, single),
        (None, None) => true,
        _ => false,
    };
    Some(review)
}

// Returns whether both know the same about each service, give the next instance the same generation, and have the same tick due.
fn know_the_same(one: &Rs, other: &Rs) -> bool {
    for index in 0..LABELS.len() {
        if one.state_of(index) != other.state_of(index) {
            return false;
        }
    }
    one.next_generation() == other.next_generation() && one.due() == other.due()
}

// Sends RS and a store of one thread the callers' calls in the order of their places, and compares each reply, and each map at its place.
// A map's record comes before the call of its place. Returns that RS and its store.
fn answer_alone(
    alloc: Global,
    said: &[Said],
    with_owed: bool,
    review: &mut Review,
) -> Option<Box<RsStore>> {
    let mut alone = new_pair(alloc)?;
    let mut given = 0;
    for view in said {
        if view.turn == REFRESHED {
            given = catch_up(
                alloc, &mut alone, said, given, view.place, with_owed, review,
            )?;
            let mark = mark_of_store(alloc, alone.store())?;
            review.equal &= view.kept == Kept::Reply { mark, owed: 0 };
        }
    }
    let _given = catch_up(alloc, &mut alone, said, given, u64::MAX, with_owed, review)?;
    Some(alone)
}

// Sends the calls from an index on that are below a place. Returns the index of the first one that wasn't sent.
fn catch_up(
    alloc: Global,
    alone: &mut RsStore,
    said: &[Said],
    from: usize,
    place: u64,
    with_owed: bool,
    review: &mut Review,
) -> Option<usize> {
    for index in from..said.len() {
        let one = &said[index];
        if one.place >= place {
            return Some(index);
        }
        if one.turn != REFRESHED {
            review.legal &= is_answered_so(alloc, alone, one, with_owed)?;
            review.calls = review.calls.wrapping_add(1);
        }
    }
    Some(said.len())
}

// Returns whether RS and its store give the same reply to the call. One that was refused because memory ran out changed nothing.
fn is_answered_so(alloc: Global, alone: &mut RsStore, one: &Said, with_owed: bool) -> Option<bool> {
    let Kept::Reply { mark, owed } = one.kept else {
        return Some(true);
    };
    let command = command_of(alloc, Known::of(one.seen), one.turn)?;
    match kept_of(alloc, &alone.answer(command))? {
        Kept::Reply {
            mark: alone_mark,
            owed: alone_owed,
        } => Some(mark == alone_mark && (!with_owed || owed == alone_owed)),
        _ => None,
    }
}

// Returns whether each follower has a map that was brought up to date.
fn are_all_refreshed(crew: &Crew<Box<RsStore>>, followers: u32) -> bool {
    let mut seen = 0u64;
    for one in &crew.said {
        if one.turn == REFRESHED {
            seen |= 1 << (one.seen % 64);
        }
    }
    seen.count_ones() >= followers
}

fn account_is_exact(crew: &Crew<Box<RsStore>>) -> bool {
    let mut takes = 0u64;
    for index in 0..crew.account.len() {
        let Some(row) = crew.account.get(index) else {
            return false;
        };
        if row.raises != row.takes.wrapping_add(u64::from(row.pending)) {
            return false;
        }
        takes = takes.wrapping_add(row.takes);
    }
    takes == crew.takes
}
