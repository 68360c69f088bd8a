//! What the subcommands and their options have in common.

use clap::builder::ValueParser;
use clap::{Arg, ArgAction, Command};
use std::alloc::{AllocError, Global};

/// Returns a subcommand with its text in the list of subcommands.
pub(crate) fn named<'a>(alloc: Global, name: &'a str, about: &'a str) -> Command<'a> {
    Command::new(alloc, name).about(about)
}

/// Returns a subcommand with its text in that list and its own help.
pub(crate) fn described<'a>(
    alloc: Global,
    name: &'a str,
    about: &'a str,
    long_about: &'a str,
) -> Command<'a> {
    named(alloc, name, about).long_about(long_about)
}

// Returns an option.
fn option<'a>(alloc: Global, name: &'a str, about: &'a str) -> Arg<'a> {
    Arg::new(alloc, name).long(name).help(about)
}

/// Returns an option without a value.
pub(crate) fn flag<'a>(alloc: Global, name: &'a str, about: &'a str) -> Arg<'a> {
    option(alloc, name, about).action(ArgAction::SetTrue)
}

/// Returns an option with a value; its text says which values are allowed.
pub(crate) fn valued<'a>(
    alloc: Global,
    name: &'a str,
    about: &'a str,
    parser: ValueParser<'a>,
) -> Arg<'a> {
    option(alloc, name, about)
        .value_name("N")
        .value_parser(parser)
        .hide_possible_values(true)
}

/// Returns an option that names a file.
pub(crate) fn of_file<'a>(alloc: Global, name: &'a str, about: &'a str) -> Arg<'a> {
    option(alloc, name, about).value_name("FILE")
}

/// The name of the argument that names an input.
pub(crate) const FILE: &str = "file";

const FILE_ABOUT: &str = "The file to read; - and none are standard input";

/// Returns the argument that names an input, shown by this word.
pub(crate) fn file<'a>(alloc: Global, shown: &'a str) -> Arg<'a> {
    Arg::new(alloc, FILE).value_name(shown).help(FILE_ABOUT)
}

/// Adds the argument that names a subcommand's input.
pub(crate) fn with_file<'a>(
    alloc: Global,
    command: Command<'a>,
) -> Result<Command<'a>, AllocError> {
    command.arg(file(alloc, "FILE"))
}

/// Adds a subcommand or an option.
pub(crate) fn add<T: Drop>(all: &mut Vec<T>, one: T) -> Result<(), AllocError> {
    Ok(all.push(one)?)
}

/// Adds a subcommand or an option, unless memory ran out for making it.
pub(crate) fn add_made<T: Drop>(
    all: &mut Vec<T>,
    one: Result<T, AllocError>,
) -> Result<(), AllocError> {
    add(all, one?)
}
