//! Compares the threads' replies with those to one thread.

use crate::compared::Compared;
use crate::line::Sizes;
use crate::share::Share;
use std::alloc::Global;
use std::sync::Wait;
use std::thread::Threads;
use test_kit::{Crew, Kept, Said, run_crew};

/// The result of a comparison with one thread.
#[derive(Clone, Copy)]
pub(crate) struct Review {
    /// The number of calls that the threads made.
    pub entries: u64,
    /// Whether the replies are those of one legal history. Each place has one call, after all that its thread had seen. A single machine
    /// that gets the commands in the order of their places gives the same replies, and reaches the same position. A pass that learnt a note
    /// has seen as much as the note's pass.
    pub legal: bool,
    /// The number of calls that were refused or stopped because memory ran out.
    pub noroom: u64,
    /// Whether in each row of the account the raises are the takes, plus one if the bit is pending, and the rows agree with the threads'
    /// own counts.
    pub exact: bool,
}

/// Lets threads share a new machine, by a number of calls each, and compares them with one thread. Returns `None` if memory runs out, or
/// if there aren't 1 to 64 threads.
pub(crate) fn share_and_compare<M, R>(rt: &R, alloc: Global, sizes: Sizes) -> Option<Review>
where
    M: Compared + Send + Drop,
    M::Command: Drop + Send,
    M::Reply: Drop + Send,
    R: Threads + Wait + Sync,
{
    let calls = sizes.calls;
    let crew = run_crew(rt, alloc, M::begin(alloc)?, sizes.threads, Share { calls })?;
    review_of(alloc, &crew)
}

// Sends one machine the commands in the order of their places, and compares. Leaves out those that were refused because memory ran out,
// and of one that was stopped so takes only the part that was done. Returns `None` if memory runs out here.
fn review_of<M: Compared + Drop>(alloc: Global, crew: &Crew<M>) -> Option<Review>
where
    M::Reply: Drop,
{
    let mut alone = M::begin(alloc)?;
    let mut review = Review {
        entries: 0,
        legal: !crew.behind,
        noroom: 0,
        exact: account_is_exact(crew),
    };
    answer_alone(alloc, &mut alone, &crew.said, &mut review)?;
    review.legal &= alone.is_as_far_as(&crew.machine);
    Some(review)
}

// Sends the machine all calls in order, and compares each reply.
fn answer_alone<M: Compared>(
    alloc: Global,
    alone: &mut M,
    said: &[Said],
    review: &mut Review,
) -> Option<()>
where
    M::Reply: Drop,
{
    for one in said {
        let same = is_answered_so(alloc, alone, one)?;
        review.add(one, same);
    }
    Some(())
}

impl Review {
    /// Returns the end of the line that is printed.
    pub(crate) fn verdict(&self) -> &'static str {
        match (self.legal, self.exact) {
            (true, true) => " history legal account exact\n",
            (true, false) => " history legal account wrong\n",
            (false, true) => " history not legal account exact\n",
            (false, false) => " history not legal account wrong\n",
        }
    }

    // Adds the call of the next place. `same` says whether the single machine gave the same reply.
    fn add(&mut self, one: &Said, same: bool) {
        let place = self.entries;
        self.legal &= same && one.place == place && one.seen <= place;
        self.noroom = self.noroom.wrapping_add(u64::from(one.kept.wants_room()));
        self.entries = place.wrapping_add(1);
    }
}

// Returns whether the machine gives the same reply to the call, or `None` if memory runs out here.
fn is_answered_so<M: Compared>(alloc: Global, alone: &mut M, one: &Said) -> Option<bool>
where
    M::Reply: Drop,
{
    match one.kept {
        Kept::NoRoom => Some(true),
        Kept::Stopped { items, owed } => does_first(alloc, alone, one, items, owed),
        Kept::Reply { .. } => replies_so(alloc, alone, one),
    }
}

// Sends the machine the part of a stopped call that was done, and returns whether it owes the same notices.
fn does_first<M: Compared>(
    alloc: Global,
    alone: &mut M,
    one: &Said,
    items: usize,
    owed: u128,
) -> Option<bool>
where
    M::Reply: Drop,
{
    let command = M::command_of(alloc, one.seen, one.turn)?;
    let reply = alone.answer(M::first_of(command, items)?);
    Some(M::owed(&reply) == owed)
}

fn replies_so<M: Compared>(alloc: Global, alone: &mut M, one: &Said) -> Option<bool>
where
    M::Reply: Drop,
{
    let reply = alone.answer(M::command_of(alloc, one.seen, one.turn)?);
    let kept = M::kept_of(alloc, &reply)?;
    if kept.wants_room() {
        return None;
    }
    Some(kept == one.kept)
}

fn account_is_exact<M>(crew: &Crew<M>) -> bool {
    let mut raises = 0u64;
    let mut takes = 0u64;
    for i in 0..crew.account.len() {
        let Some(row) = crew.account.get(i) else {
            return false;
        };
        if row.raises != row.takes.wrapping_add(u64::from(row.pending)) {
            return false;
        }
        raises = raises.wrapping_add(row.raises);
        takes = takes.wrapping_add(row.takes);
    }
    raises == crew.raises && takes == crew.takes
}
