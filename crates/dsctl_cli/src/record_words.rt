//! The command line of `dsctl record`.

use crate::described::{add, add_made, described, valued, with_file};
use crate::help_record::{FORMAT_ABOUT, KEYS_ABOUT, RECORD_ABOUT, RECORD_LONG_ABOUT};
use crate::words::TraceForm;
use clap::builder::ValueParser;
use clap::error::ErrorKind;
use clap::{Arg, ArgMatches, Command, Error};
use std::alloc::{AllocError, Global};

// The options' names and values.
const FORMAT: &str = "format";

const FORMATS: [&str; 2] = ["1", "2"];

const KEYS: &str = "keys";

const COUNTS: [&str; 2] = ["1024", "4096"];

/// Adds the subcommand.
pub(crate) fn add_record<'a>(alloc: Global, all: &mut Vec<Command<'a>>) -> Result<(), AllocError> {
    let mut options = Vec::new(alloc);
    add_forms(alloc, &mut options)?;
    let record = described(alloc, "record", RECORD_ABOUT, RECORD_LONG_ABOUT);
    add_made(all, with_file(alloc, record)?.args(options))
}

fn add_forms<'a>(alloc: Global, all: &mut Vec<Arg<'a>>) -> Result<(), AllocError> {
    add_one_of(alloc, all, FORMAT, FORMAT_ABOUT, &FORMATS)?;
    add_one_of(alloc, all, KEYS, KEYS_ABOUT, &COUNTS)
}

// Adds an option whose value is one of these.
fn add_one_of<'a>(
    alloc: Global,
    all: &mut Vec<Arg<'a>>,
    name: &'a str,
    about: &'a str,
    values: &'a [&'a str],
) -> Result<(), AllocError> {
    add(all, valued(alloc, name, about, ValueParser::Names(values)))
}

/// Returns the form of trace that the options ask for; `None` for format 1 with 4096 keys.
pub(crate) fn form_of(given: &ArgMatches<'_>) -> Option<TraceForm> {
    match (given.get_str(FORMAT), given.get_str(KEYS)) {
        (Some("1"), Some("4096")) => None,
        (Some("1"), _) => Some(TraceForm::One),
        (_, Some("1024")) => Some(TraceForm::SmallerTwo),
        (_, _) => Some(TraceForm::Two),
    }
}

/// Returns the usage error for format 1 with 4096 keys.
pub(crate) fn too_many_keys(alloc: Global) -> Result<Error, AllocError> {
    Command::new(alloc, "record")
        .override_usage("dsctl record [OPTIONS]")
        .error(
            ErrorKind::ArgumentConflict,
            "a trace of format 1 has 1024 keys, never 4096",
        )
}
