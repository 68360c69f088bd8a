//! Carries out lines of the section.

use crate::counter::Counter;
use crate::labels::{Labels, publish_labels};
use crate::line::Line;
use crate::overwrite::overwrite_labels;
use crate::playing::play;
use crate::refused::refuse_desks;
use crate::review::{Review, share_and_compare};
use crate::rounds;
use crate::rows::Row;
use crate::tell::tell;
use ds_store::Store;
use std::alloc::Global;
use std::sync::Wait;
use std::thread::Threads;
use test_kit::Failure;

/// Carries out a line, and prints the result.
pub(crate) fn answer_line<R: Print + Threads + Wait + Sync>(
    rt: &R,
    alloc: Global,
    asked: Line,
) -> Result<(), Failure> {
    match asked {
        Line::Counter(sizes) => {
            let review = share_and_compare::<Counter, R>(rt, alloc, sizes);
            tell_review(rt, sizes.threads, review, false)
        }
        Line::Store(sizes) => {
            let review = share_and_compare::<Box<Store>, R>(rt, alloc, sizes);
            tell_review(rt, sizes.threads, review, true)
        }
        Line::Overwrite(sizes) => {
            let sum = overwrite_labels::<Box<Store>, R>(rt, alloc, sizes);
            tell_sum(rt, sum)
        }
        Line::Labels(count) => {
            let labels = publish_labels::<Box<Store>, R>(rt, alloc, count);
            tell_labels(rt, labels)
        }
        Line::Front(count) => tell_sum(rt, rounds::look::<Box<Store>>(alloc, count)),
        Line::Take(count) => tell_sum(rt, rounds::take::<Box<Store>>(alloc, count)),
        Line::Rows(rows) => play_rows(rt, alloc, rows),
        Line::NoDesk => refuse_desks::<Box<Store>, R>(rt, alloc),
    }
}

// Plays the steps of each row by two passes.
fn play_rows<R: Print + Wait>(rt: &R, alloc: Global, rows: &[Row]) -> Result<(), Failure> {
    for row in rows {
        play::<Box<Store>, R>(rt, alloc, row)?;
    }
    Ok(())
}

// Prints the labels that are left after the changes.
fn tell_labels(rt: &impl Print, labels: Option<Labels>) -> Result<(), Failure> {
    let labels = labels.ok_or(Failure::NoRoom)?;
    tell(
        rt,
        &[
            ("changes ", u128::from(labels.changes)),
            (" generations ", u128::from(labels.first)),
            (" ", u128::from(labels.second)),
        ],
        "\n",
    )
}

// Prints the count of calls that were only made.
fn tell_sum(rt: &impl Print, count: Option<u64>) -> Result<(), Failure> {
    let sum = count.ok_or(Failure::NoRoom)?;
    tell(rt, &[("sum ", u128::from(sum))], "\n")
}

// Prints how the threads' replies compare. For a machine that takes memory, also prints how many calls ran out of memory.
fn tell_review(
    rt: &impl Print,
    threads: u32,
    review: Option<Review>,
    takes_memory: bool,
) -> Result<(), Failure> {
    let review = review.ok_or(Failure::NoRoom)?;
    let numbers = [
        ("threads ", u128::from(threads)),
        (" entries ", u128::from(review.entries)),
        (" noroom ", u128::from(review.noroom)),
    ];
    let told = if takes_memory { 3 } else { 2 };
    tell(rt, &numbers[..told], review.verdict())
}
