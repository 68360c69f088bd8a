//! A section of the program for tests: calls that no other section makes, or not in this way, with enough memory.
//!
//! A contract can't say that memory is available, so a body that always gives up could be proved. Here memory is
//! available. The section has no input. It prints, each kind of row by one write:
//! - a line after a world's events, run at once, had the right outcomes;
//! - for each reading of a store whose driver keeps publishing, the names of the items, or why the reader gave up;
//! - the answers of a journal of two items to a cursor;
//! - the replies to commands that a store runs at once, and what comes of joining holders;
//! - endpoints, and lines that were parsed, copied and written again;
//! - the items that cover each other;
//! - a line after a trace and a forged one were judged;
//! - a line after each read of a script has failed, and one after each write has.
#![tactic(auto)]

mod copies;
mod driver;
mod endpoints;
mod joins;
mod journal;
mod keys;
mod lines;
mod readings;
mod rival;
mod runs;
mod scripts;
mod telling;
mod traces;
mod world;

use std::alloc::Global;
use std::io::{self, Write};
use std::rt::Runtime;
use test_kit::Failure;

// The kinds of rows.
#[derive(Clone, Copy)]
enum Rows {
    World,
    Readings,
    Journal,
    Runs,
    Joins,
    Endpoints,
    Changes,
    Items,
    Covered,
    Traces,
    Scripts,
}

const ALL: [Rows; 11] = [
    Rows::World,
    Rows::Readings,
    Rows::Journal,
    Rows::Runs,
    Rows::Joins,
    Rows::Endpoints,
    Rows::Changes,
    Rows::Items,
    Rows::Covered,
    Rows::Traces,
    Rows::Scripts,
];

/// Prints all rows. Ends early if a call's answer is wrong, or if memory or writing fails.
pub fn answer(rt: &(impl Runtime + AllocGlobal)) -> Result<(), Failure> {
    let mut text = Vec::new(rt.alloc());
    print_all(rt, rt.alloc(), &mut text).ok_or(Failure::Unexpected)
}

fn print_all(rt: &impl Runtime, alloc: Global, text: &mut Vec<u8>) -> Option<()> {
    for rows in ALL {
        text.clear();
        tell_rows(text, alloc, rows)?;
        io::writer(rt).write_all(text.as_slice()).ok()?;
    }
    Some(())
}

fn tell_rows(text: &mut Vec<u8>, alloc: Global, rows: Rows) -> Option<()> {
    match rows {
        Rows::World => world::tell_rows(text, alloc),
        Rows::Readings => readings::tell_rows(text, alloc),
        Rows::Journal => journal::tell_rows(text, alloc),
        Rows::Runs => runs::tell_rows(text, alloc),
        Rows::Joins => joins::tell_rows(text, alloc),
        Rows::Endpoints => endpoints::tell_rows(text, alloc),
        Rows::Changes => copies::tell_changes(text, alloc),
        Rows::Items => copies::tell_items_again(text, alloc),
        Rows::Covered => lines::tell_rows(text, alloc),
        Rows::Traces => traces::tell_rows(text, alloc),
        Rows::Scripts => scripts::tell_rows(text, alloc),
    }
}
