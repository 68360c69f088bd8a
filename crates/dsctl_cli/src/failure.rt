//! Failures that end the program early, and their statuses.

use crate::prompt::Terminals;
use std::io;
use std::process::ExitCode;
use std::rt::Runtime;

/// Why the program ends early, with the system's error if there is one.
#[derive(Clone, Copy)]
pub enum Failure {
    NoRoom,
    ReadFault(Option<io::Error>),
    WriteFault(Option<io::Error>),
    /// A run of threads failed, with this word.
    Live(&'static str),
    /// A file that the command line names can't be opened, as standard error says.
    Unopened,
    /// A script to begin with has a bad line, or one that is refused, as standard error says.
    Unloaded,
    /// The store can't be saved.
    Unsaved(io::Error),
}

impl Failure {
    /// Writes the failure's word to standard error. If that is a terminal, the system's reason follows in a second line.
    pub fn tell(&self, rt: &impl Runtime, terminals: Terminals) {
        if let Some(word) = self.word() {
            let _ = rt.eprintln(word);
        }
        if terminals.error {
            self.tell_reason(rt);
        }
    }

    /// Returns the exit status: 2 if a named file can't be opened, 1 if a script can't be loaded, else 3.
    pub fn status(&self) -> ExitCode {
        match self {
            Failure::Unopened => ExitCode::from(2),
            Failure::Unloaded => ExitCode::from(1),
            _ => ExitCode::from(3),
        }
    }

    // Returns the word of status 3.
    fn word(&self) -> Option<&'static str> {
        match self {
            Failure::NoRoom => Some("noroom"),
            Failure::ReadFault(_) => Some("readfault"),
            Failure::WriteFault(_) | Failure::Unsaved(_) => Some("writefault"),
            Failure::Live(word) => Some(word),
            Failure::Unopened | Failure::Unloaded => None,
        }
    }

    // Writes the system's reason to standard error, if reading or writing failed.
    fn tell_reason(&self, rt: &impl Runtime) {
        let _ = match self {
            Failure::ReadFault(Some(error)) => {
                eprintln!(rt; "dsctl: the input can't be read: {error}")
            }
            Failure::WriteFault(Some(error)) => {
                eprintln!(rt; "dsctl: the answers can't be written: {error}")
            }
            Failure::Unsaved(error) => eprintln!(rt; "dsctl: the store can't be saved: {error}"),
            _ => Ok(()),
        };
    }
}
