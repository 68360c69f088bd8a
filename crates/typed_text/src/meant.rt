//! What an unknown word may mean: a known one that is near, begins so, or has the same work in other stores.

use std::fmt;

/// The words that lines of a script begin with.
pub const COMMANDS: [&str; 29] = [
    "publish",
    "delete",
    "sweep",
    "retrieve",
    "nameof",
    "subscribe",
    "check",
    "map",
    "entries",
    "offer",
    "show",
    "all",
    "since",
    "snapshot",
    "page",
    "side",
    "deliver",
    "clear",
    "restart",
    "ring",
    "settings",
    "service",
    "death",
    "beat",
    "tick",
    "assign",
    "follow",
    "submit",
    "reply",
];

/// The words of etcdctl, redis-cli and other stores, each with the command here.
const ELSEWHERE: [(&str, &str); 24] = [
    ("get", "retrieve"),
    ("mget", "retrieve"),
    ("read", "retrieve"),
    ("cat", "retrieve"),
    ("lookup", "retrieve"),
    ("set", "publish"),
    ("put", "publish"),
    ("add", "publish"),
    ("write", "publish"),
    ("create", "publish"),
    ("del", "delete"),
    ("rm", "delete"),
    ("remove", "delete"),
    ("unset", "delete"),
    ("ls", "show"),
    ("list", "show"),
    ("keys", "show"),
    ("scan", "show"),
    ("dump", "all"),
    ("watch", "subscribe"),
    ("psubscribe", "subscribe"),
    ("monitor", "subscribe"),
    ("whois", "nameof"),
    ("merge", "offer"),
];

/// What an unknown word may mean, as the end of a sentence; empty if nothing is known of it.
#[derive(Clone, Copy)]
pub enum Meant<'a> {
    /// The command here that has its work.
    Here(&'static str),
    /// It begins some of these words.
    Front(&'a [u8], &'static [&'static str]),
    /// The nearest known word.
    Near(Option<&'static str>),
}

impl<'a> Meant<'a> {
    /// Returns what a word may mean as a command; `near` is the nearest known word.
    pub fn of(word: &'a [u8], near: Option<&'static str>) -> Meant<'a> {
        Meant::among(word, near, &COMMANDS)
    }

    /// Returns what a word may mean as one of these commands; `near` is the nearest known word.
    pub fn among(
        word: &'a [u8],
        near: Option<&'static str>,
        commands: &'static [&'static str],
    ) -> Meant<'a> {
        match elsewhere(word) {
            Some(here) if commands.iter().any(|it| *it == here) => Meant::Here(here),
            _ if commands.iter().any(|it| begins(word, it)) => Meant::Front(word, commands),
            _ => Meant::Near(near),
        }
    }
}

impl fmt::Display for Meant<'_> {
    fn fmt<W: fmt::Write>(&self, f: &mut fmt::Formatter<W>) -> fmt::Result {
        match self {
            Meant::Here(here) => write!(f, ", here it is `{here}`"),
            Meant::Near(Some(near)) => write!(f, ", the nearest is `{near}`"),
            Meant::Near(None) => Ok(()),
            Meant::Front(word, commands) => write_begun(f, word, commands),
        }
    }
}

// Returns the command here that has the work of another store's word.
fn elsewhere(word: &[u8]) -> Option<&'static str> {
    for (other, here) in &ELSEWHERE {
        if word.eq_ignore_ascii_case(other.as_bytes()) {
            return Some(here);
        }
    }
    None
}

// Whether a command begins with this word, and has more.
fn begins(word: &[u8], command: &str) -> bool {
    !word.is_empty() && command.len() > word.len() && command.as_bytes().starts_with(word)
}

// Writes the commands that begin with a word.
fn write_begun<W: fmt::Write>(
    f: &mut fmt::Formatter<W>,
    word: &[u8],
    commands: &[&str],
) -> fmt::Result {
    f.write_str(", it begins")?;
    for command in commands {
        if begins(word, command) {
            write!(f, " `{command}`")?;
        }
    }
    Ok(())
}
