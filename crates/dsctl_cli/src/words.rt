//! The command line.

use crate::described::{FILE, add, add_made, described, file, flag, named, of_file, with_file};
use crate::help::{ABOUT, LINES, LONG_ABOUT};
use crate::help_traces::{UPGRADE_ABOUT, UPGRADE_LONG_ABOUT, VERIFY_ABOUT, VERIFY_LONG_ABOUT};
use crate::help_word::print_explained;
use crate::help_words::{
    AFTER_HELP, ENDS_ABOUT, KEEP_GOING_ABOUT, LINE_ABOUT, LOAD_ABOUT, SAVE_ABOUT, SETTINGS_ABOUT,
    SETTINGS_LONG_ABOUT, STOP_ABOUT,
};
use crate::input::{SUBCOMMANDS, begins_line, explain_line, nearest_command};
use crate::live_words::{add_live, crew_of};
use crate::record_words::{add_record, form_of, too_many_keys};
use clap::error::ErrorKind;
use clap::{Arg, ArgMatches, Command, Error};
use std::alloc::{AllocError, Global};
use std::env::Args;
use std::io;
use std::rt::Runtime;

/// What the command line asks for, and the files that it names.
#[derive(Drop)]
pub struct Asked {
    pub words: Words,
    /// The name of the input. `None`, and `-`, are standard input.
    pub file: Option<String>,
    /// The name of the script that a replay begins with, without its answers.
    pub load: Option<String>,
    /// The name of the file that gets a replay's store.
    pub save: Option<String>,
}

/// What the command line asks for, or how it was answered.
#[derive(Clone, Copy)]
pub enum Words {
    /// Answer a script.
    Replay(Replaying),
    /// Show a settings text; as a line of a script, if that is asked for.
    Settings { as_line: bool },
    /// Judge a trace.
    Verify,
    /// Write a trace of format 1 in format 2.
    Upgrade,
    /// Write the trace of a run, in this form.
    Record(TraceForm),
    /// Run threads.
    Live(Crew),
    /// Help or the version was asked for, and is printed.
    Shown,
    /// The command line is wrong, as standard error says.
    Usage,
    /// Out of memory to parse it.
    NoRoom,
    /// Help or the version couldn't be written.
    WriteFault(io::Error),
}

/// How a script is answered.
#[derive(Clone, Copy)]
pub struct Replaying {
    /// Whether to continue after a bad line, if an option says so.
    pub go_on: Option<bool>,
    /// Whether an empty line ends each answer.
    pub ends: bool,
}

/// A run of threads.
#[derive(Clone, Copy)]
pub struct Crew {
    /// How many publish.
    pub publishers: u32,
    /// How many follow.
    pub subscribers: u32,
    /// How many turns each takes.
    pub changes: u32,
    /// What the pauses before turns are drawn from; without it there are none.
    pub seed: Option<u32>,
    /// For how many seconds runs are repeated; without it there is one.
    pub seconds: Option<u32>,
}

/// The form of a recorded trace.
#[derive(Clone, Copy)]
pub enum TraceForm {
    /// Format 1, of 64 subscriptions and 1024 keys.
    One,
    /// Format 2, with the limits of format 1.
    SmallerTwo,
    /// Format 2, with 128 subscriptions and 4096 keys.
    Two,
}

/// Parses the program's command line. Answers a wrong one, or a request for help, itself.
pub fn read<R: Runtime + AllocGlobal>(rt: &R) -> Asked {
    match std::env::args(rt) {
        Ok(given) => read_given(rt, given),
        Err(error) => without_file(unread(rt, error.kind())),
    }
}

// Returns this without a file.
fn without_file(words: Words) -> Asked {
    Asked {
        words,
        file: None,
        load: None,
        save: None,
    }
}

// Answers a command line that can't be read: out of memory, or not UTF-8.
fn unread(rt: &impl Runtime, kind: io::ErrorKind) -> Words {
    if kind == io::ErrorKind::OutOfMemory {
        return Words::NoRoom;
    }
    let _ = rt.eprintln("dsctl: a word of the command line isn't UTF-8");
    Words::Usage
}

fn read_given<R: Runtime + AllocGlobal>(rt: &R, given: Args) -> Asked {
    match listed(rt.alloc(), given) {
        Ok(words) => understood(rt, &words),
        Err(AllocError) => without_file(Words::NoRoom),
    }
}

// Returns the arguments as a list.
fn listed(alloc: Global, given: Args) -> Result<Vec<String>, AllocError> {
    let mut words: Vec<String> = Vec::new(alloc);
    for word in given {
        // Not `collect`, which continues with fewer after a growth was refused.
        if words.push(word).is_err() {
            return Err(AllocError);
        }
    }
    Ok(words)
}

// Returns what the arguments ask for. Answers wrong ones, and requests for help.
fn understood<R: Runtime + AllocGlobal>(rt: &R, words: &[String]) -> Asked {
    match parse(rt, words) {
        Ok(asked) => asked,
        Err(error) => without_file(answer(rt, &error, words)),
    }
}

// Parses the arguments. Answers a file's name before a subcommand.
fn parse<R: Runtime + AllocGlobal>(rt: &R, words: &[String]) -> Result<Asked, Error> {
    let alloc = rt.alloc();
    let matches = matches_of(alloc, words)?;
    if refuses_file_before(rt, &matches) {
        return Ok(without_file(Words::Usage));
    }
    match asked_by(&matches) {
        Some(words) => Ok(Asked {
            words,
            file: file_of(alloc, &matches)?,
            load: replay_file(alloc, &matches, LOAD)?,
            save: replay_file(alloc, &matches, SAVE)?,
        }),
        None => Err(too_many_keys(alloc)?),
    }
}

// Returns the arguments as `clap` parses them.
fn matches_of<'a>(alloc: Global, words: &'a [String]) -> Result<ArgMatches<'a>, Error> {
    command(alloc)?.try_get_matches_from(words)
}

// Whether a file is named before a subcommand, which wouldn't read it. Standard error then says so.
fn refuses_file_before(rt: &impl Runtime, matches: &ArgMatches<'_>) -> bool {
    let (Some(name), Some((word, _))) = (matches.get_str(FILE), matches.subcommand()) else {
        return false;
    };
    if word == "live" {
        let _ = eprintln!(rt; "dsctl: `{name}` stands before `live`, which reads nothing");
    } else {
        let _ = eprintln!(rt;
            "dsctl: `{name}` stands before `{word}`: name the file after it, as in dsctl {word} FILE"
        );
    }
    true
}

// Returns what is asked for; `None` for a trace of format 1 with 4096 keys.
fn asked_by(matches: &ArgMatches<'_>) -> Option<Words> {
    let Some((word, given)) = matches.subcommand() else {
        return Some(Words::Replay(Replaying {
            go_on: None,
            ends: false,
        }));
    };
    Some(match word {
        "settings" => Words::Settings {
            as_line: given.get_flag(LINE),
        },
        "verify" => Words::Verify,
        "upgrade" => Words::Upgrade,
        "record" => Words::Record(form_of(given)?),
        "live" => crew_of(given),
        _ => Words::Replay(way_of(given)),
    })
}

// Returns a copy of the name of the input, if one is given.
fn file_of(alloc: Global, matches: &ArgMatches<'_>) -> Result<Option<String>, AllocError> {
    let name = match matches.subcommand() {
        Some(("live", _)) => None,
        Some((_, given)) => given.get_str(FILE),
        None => matches.get_str(FILE),
    };
    copied(alloc, name)
}

// Returns a copy of the name of the file that an option of `replay` names, if it is given.
fn replay_file(
    alloc: Global,
    matches: &ArgMatches<'_>,
    option: &str,
) -> Result<Option<String>, AllocError> {
    match matches.subcommand() {
        Some(("replay", given)) => copied(alloc, given.get_str(option)),
        _ => Ok(None),
    }
}

fn copied(alloc: Global, name: Option<&str>) -> Result<Option<String>, AllocError> {
    match name {
        Some(name) => Ok(Some(String::from_str(alloc, name)?)),
        None => Ok(None),
    }
}

// Returns how the options have a script answered.
fn way_of(given: &ArgMatches<'_>) -> Replaying {
    Replaying {
        go_on: going_on(given),
        ends: given.get_flag(ENDS),
    }
}

// Returns whether to continue after a bad line, if an option says so.
fn going_on(given: &ArgMatches<'_>) -> Option<bool> {
    if given.get_flag(KEEP_GOING) {
        return Some(true);
    }
    given.get_flag(STOP).then_some(false)
}

// The options to continue after bad lines, and to end there.
const KEEP_GOING: &str = "keep-going";

const STOP: &str = "stop";

// The option to end each answer by an empty line.
const ENDS: &str = "ends";

// The options to begin with a saved store, and to save the store at the end.
const LOAD: &str = "load";

const SAVE: &str = "save";

// Returns the program's command line.
fn command<'a>(alloc: Global) -> Result<Command<'a>, AllocError> {
    let mut subcommands = Vec::new(alloc);
    add_subcommands(alloc, &mut subcommands)?;
    program(alloc)
        .arg(file(alloc, "SCRIPT"))?
        .subcommands(subcommands)
}

// Returns the program, without its subcommands.
fn program<'a>(alloc: Global) -> Command<'a> {
    described(alloc, "dsctl", ABOUT, LONG_ABOUT)
        .version("0.9.0")
        .after_help(LINES)
        .after_long_help(AFTER_HELP)
}

fn add_subcommands<'a>(alloc: Global, all: &mut Vec<Command<'a>>) -> Result<(), AllocError> {
    add_replay(alloc, all)?;
    add_settings(alloc, all)?;
    let verify = described(alloc, "verify", VERIFY_ABOUT, VERIFY_LONG_ABOUT);
    add_made(all, with_file(alloc, verify))?;
    let upgrade = described(alloc, "upgrade", UPGRADE_ABOUT, UPGRADE_LONG_ABOUT);
    add_made(all, with_file(alloc, upgrade))?;
    add_record(alloc, all)?;
    add_live(alloc, all)
}

// The option to print settings as a line of a script.
const LINE: &str = "line";

fn add_settings<'a>(alloc: Global, all: &mut Vec<Command<'a>>) -> Result<(), AllocError> {
    let mut options = Vec::new(alloc);
    add(&mut options, flag(alloc, LINE, LINE_ABOUT))?;
    let settings = described(alloc, "settings", SETTINGS_ABOUT, SETTINGS_LONG_ABOUT);
    add_made(all, with_file(alloc, settings)?.args(options))
}

fn add_replay<'a>(alloc: Global, all: &mut Vec<Command<'a>>) -> Result<(), AllocError> {
    let mut options = Vec::new(alloc);
    add_flags(alloc, &mut options)?;
    let about = "Answer a script; this is the default subcommand";
    let replay = with_file(alloc, named(alloc, "replay", about).after_help(LINES))?;
    add_made(all, replay.args(options))
}

// Adds the options of `replay`. `--stop` and `--keep-going` exclude each other.
fn add_flags<'a>(alloc: Global, options: &mut Vec<Arg<'a>>) -> Result<(), AllocError> {
    add(options, flag(alloc, KEEP_GOING, KEEP_GOING_ABOUT))?;
    let stop = flag(alloc, STOP, STOP_ABOUT);
    add_made(options, stop.conflicts_with(KEEP_GOING))?;
    add(options, flag(alloc, ENDS, ENDS_ABOUT))?;
    add(options, of_file(alloc, LOAD, LOAD_ABOUT))?;
    add(options, of_file(alloc, SAVE, SAVE_ABOUT))
}

// The tip for a file's name where none is read.
const NOTHING: &str = "dsctl: live reads nothing, and its options take numbers";

// The tip for more than one file's name.
const ONE_FILE: &str = "dsctl: one file is read, and another word is too many";

// The tip for a user who gave an option of `replay` without its subcommand.
const AFTER_REPLAY: &str =
    "dsctl: --keep-going, --stop, --ends, --load and --save follow a subcommand, as in dsctl replay --ends";

const OF_REPLAY: [&str; 5] = ["--keep-going", "--stop", "--ends", "--load", "--save"];

// The tip for a value that isn't a number, or is out of its range. Only `live` has such options.
const A_NUMBER: &str =
    "dsctl: a number in the option's range was expected, which dsctl live --help shows";

// Returns a tip to add to `clap`'s message about a wrong command line.
fn tip(given: &[String]) -> Option<&'static str> {
    let word = given.get(1)?.as_str();
    if is_of_replay(word) {
        return Some(AFTER_REPLAY);
    }
    match word {
        "live" => names_a_file(given).then_some(NOTHING),
        _ if !SUBCOMMANDS.contains(&word) && given.iter().any(|it| is_of_replay(it.as_str())) => {
            Some(AFTER_REPLAY)
        }
        _ => (names_count(given) > 1).then_some(ONE_FILE),
    }
}

// Whether a word is an option of `replay`, perhaps with its value.
fn is_of_replay(word: &str) -> bool {
    let name = match word.split_once('=') {
        Some((name, _)) => name,
        None => word,
    };
    OF_REPLAY.contains(&name)
}

// Likewise, by what is wrong.
fn tip_for(error: &Error, given: &[String]) -> Option<&'static str> {
    match error.kind() {
        ErrorKind::InvalidSubcommand | ErrorKind::UnknownArgument => tip(given),
        ErrorKind::ValueValidation => Some(A_NUMBER),
        _ => None,
    }
}

// Returns the subcommand that was meant by an unknown one, as in `dsctl verfy FILE`.
fn meant_command(error: &Error, given: &[String]) -> Option<&'static str> {
    let word = given.get(1)?.as_str();
    match error.kind() {
        ErrorKind::InvalidSubcommand | ErrorKind::UnknownArgument => {
            nearest_command(word).filter(|near| *near != word)
        }
        _ => None,
    }
}

// Returns the first word of a line that was given in place of a subcommand, as in `dsctl retrieve mtu u32`.
fn line_given<'a>(error: &Error, given: &'a [String]) -> Option<&'a str> {
    let word = given.get(1)?.as_str();
    let is_unread = matches!(
        error.kind(),
        ErrorKind::InvalidSubcommand | ErrorKind::UnknownArgument
    );
    (is_unread && !SUBCOMMANDS.contains(&word) && begins_line(word)).then_some(word)
}

// Whether an argument looks like a file's name.
fn names_a_file(given: &[String]) -> bool {
    names_count(given) > 0
}

// Returns how many arguments look like names of files.
fn names_count(given: &[String]) -> usize {
    given
        .iter()
        .skip(1)
        .filter(|word| names_file(word.as_str()))
        .count()
}

// Whether a word looks like a file's name.
fn names_file(word: &str) -> bool {
    !word.starts_with('-') && (word.contains('.') || word.contains('/'))
}

// Prints `clap`'s message: a usage error to standard error, help or the version to standard output.
fn answer(rt: &(impl Runtime + AllocGlobal), error: &Error, given: &[String]) -> Words {
    if matches!(error.kind(), ErrorKind::OutOfMemory) {
        return Words::NoRoom;
    }
    if let Some(word) = word_asked(error, given) {
        return answer_word(rt, word);
    }
    let Ok(text) = format!(in rt.alloc(); "{error}") else {
        return Words::NoRoom;
    };
    let printed = print_message(rt, error, text.as_str());
    if let Some(word) = line_given(error, given) {
        explain_line(rt, word);
    } else if let Some(near) = meant_command(error, given) {
        let _ = eprintln!(rt; "dsctl: the nearest command is `{near}`");
    } else if let Some(tip) = tip_for(error, given) {
        let _ = rt.eprintln(tip);
    }
    match (error.use_stderr(), printed) {
        (true, _) => Words::Usage,
        (false, Ok(())) => Words::Shown,
        (false, Err(error)) => Words::WriteFault(error),
    }
}

// The word that `clap`'s message about a usage error begins with.
const ERROR: &str = "error: ";

// What the parser of numbers says of a text that isn't one, and how it writes a range.
const NO_NUMBER: &str = "invalid digit found in string";

const RANGE: &str = "..=";

// Prints the text of `clap`'s message; that of a usage error begins as the program's other sentences do.
fn print_message(rt: &impl Runtime, error: &Error, text: &str) -> io::Result<()> {
    if !error.use_stderr() {
        return print!(rt; "{text}");
    }
    let said = text.strip_prefix(ERROR).unwrap_or(text);
    if let Some((front, rest)) = said.split_once(NO_NUMBER) {
        return eprint!(rt; "dsctl: {front}it isn't a number{rest}");
    }
    match said.split_once(RANGE) {
        Some((front, rest)) => eprint!(rt; "dsctl: {front} to {rest}"),
        None => eprint!(rt; "dsctl: {said}"),
    }
}

// Returns the word that `dsctl help` is asked for, if it isn't a subcommand. A line or an answer may be given as printed.
fn word_asked<'a>(error: &Error, given: &'a [String]) -> Option<&'a str> {
    if !matches!(error.kind(), ErrorKind::InvalidSubcommand) || given.get(1)?.as_str() != "help" {
        return None;
    }
    match given.get(2)?.as_str() {
        "refused" => Some(given.get(3).map_or("refused", |it| it.as_str())),
        word if SUBCOMMANDS.contains(&word) => None,
        word => Some(word),
    }
}

// Explains a word of lines. Of an unknown one standard error has a sentence.
fn answer_word(rt: &impl Runtime, word: &str) -> Words {
    match print_explained(rt, word.as_bytes()) {
        Ok(true) => Words::Shown,
        Ok(false) => Words::Usage,
        Err(error) => Words::WriteFault(error),
    }
}
