//! The command line of `dsctl live`.

use crate::described::{add, add_made, described, valued};
use crate::words::{Crew, Words};
use clap::builder::ValueParser;
use clap::{Arg, ArgMatches, Command};
use std::alloc::{AllocError, Global};

// The options, by their names.
const PUBLISHERS: &str = "publishers";

const SUBSCRIBERS: &str = "subscribers";

const CHANGES: &str = "changes";

const SEED: &str = "seed";

const FOR: &str = "for";

const ABOUT: &str = "Run threads that publish, follow and exchange, and report";

const LONG_ABOUT: &str = "\
Runs threads that publish, follow and exchange over two stores, and reports the
result. Nothing is read.

RS publishes the labels `p0`, `p1` and so on at the first store, and then each
worker has a thread of its own. A publisher overwrites its number there, `n0`,
`n1` and so on, once a turn. A subscriber takes its notices, and keeps a map of
all that the first store holds. One more worker delivers what the first store
has to the second. When all have ended, the maps and the second store are
brought up to date, and then there are four lines:
  entries N        how many entries the first store holds
  maps equal       each subscriber's map has just these; else `maps differ`
  replicas equal   the second store has just these; else `replicas differ`
  account exact    each notice that was raised was taken, or is pending; else
                   `account wrong`

With `--seed` each worker pauses before each turn, for as long as is drawn from
the seed: the threads meet otherwise. With `--for` runs follow one another, and
the report is that of all: `differ` or `wrong` if it is so after any of them. At
a terminal standard error shows how many turns began so far, in one line that is
renewed between two runs, at most once a second.

A run that fails prints nothing, has one word on standard error, and status 3:
  noroom           memory ran out
  stopped          memory ran out while the second store was brought up to date
  nothread         a thread couldn't be made; all that were made have ended
  refused, desk    a store, or the desk at which threads share it, refused a
                   call";

/// Adds the subcommand.
pub(crate) fn add_live<'a>(alloc: Global, all: &mut Vec<Command<'a>>) -> Result<(), AllocError> {
    let mut options = Vec::new(alloc);
    add_numbers(alloc, &mut options)?;
    let live = described(alloc, "live", ABOUT, LONG_ABOUT);
    add_made(all, live.args(options))
}

fn add_numbers<'a>(alloc: Global, all: &mut Vec<Arg<'a>>) -> Result<(), AllocError> {
    add_number(alloc, all, PUBLISHERS, "How many publish, 1 to 8", "2", 8)?;
    add_number(alloc, all, SUBSCRIBERS, "How many follow, 1 to 8", "2", 8)?;
    add_number(alloc, all, CHANGES, TURNS_ABOUT, "3", 1000)?;
    add_choice(alloc, all, SEED, SEED_ABOUT, 0, 4294967295)?;
    add_choice(alloc, all, FOR, FOR_ABOUT, 1, 86400)
}

const TURNS_ABOUT: &str = "How many turns each takes, 1 to 1000";

const SEED_ABOUT: &str = "Draw pauses before turns, by 0 to 4294967295";

const FOR_ABOUT: &str = "Repeat runs for seconds, 1 to 86400";

// Adds an option whose value is a number from 1 to `most`.
fn add_number<'a>(
    alloc: Global,
    all: &mut Vec<Arg<'a>>,
    name: &'a str,
    about: &'a str,
    default: &'a str,
    most: i64,
) -> Result<(), AllocError> {
    let number = valued(alloc, name, about, ValueParser::Signed(1, most));
    add(all, number.default_value(default))
}

// Adds an option whose value is a number from `least` to `most`, with no default.
fn add_choice<'a>(
    alloc: Global,
    all: &mut Vec<Arg<'a>>,
    name: &'a str,
    about: &'a str,
    least: i64,
    most: i64,
) -> Result<(), AllocError> {
    let parser = ValueParser::Signed(least, most);
    add(all, valued(alloc, name, about, parser))
}

/// Returns the run that the options ask for. Three have a default; without it the number would be 0, which no run takes.
pub(crate) fn crew_of(given: &ArgMatches<'_>) -> Words {
    Words::Live(Crew {
        publishers: given.get_one::<u32>(PUBLISHERS).unwrap_or(0),
        subscribers: given.get_one::<u32>(SUBSCRIBERS).unwrap_or(0),
        changes: given.get_one::<u32>(CHANGES).unwrap_or(0),
        seed: given.get_one::<u32>(SEED),
        seconds: given.get_one::<u32>(FOR),
    })
}
