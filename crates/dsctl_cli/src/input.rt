//! What a subcommand reads: standard input, or a file by its name.

use std::fs;
use std::io::{self, Read};
use std::rt::Runtime;
use typed_text::{COMMANDS, IfNear, nearest};

/// Standard input, or an open file.
#[derive(Drop)]
pub enum Input<R: Runtime> {
    /// Standard input.
    Standard(R::Reader),
    /// A file that the command line names.
    Named(R::File),
}

impl<R: Runtime> Input<R> {
    /// Opens the file with this name; `-` and no name are standard input. `Err`: the file can't be opened, which standard
    /// error says.
    pub fn open(rt: &R, name: Option<&str>) -> Result<Input<R>, io::Error> {
        match name {
            None | Some("-") => Ok(Input::Standard(rt.reader())),
            Some(name) => match fs::open(rt, name) {
                Ok(file) => Ok(Input::Named(file)),
                Err(error) => {
                    tell_unopened(rt, name, error);
                    Err(error)
                }
            },
        }
    }

    /// Whether it is standard input.
    pub(crate) fn is_standard(&self) -> bool {
        match self {
            Input::Standard(_) => true,
            Input::Named(_) => false,
        }
    }
}

impl<R: Runtime> Read for Input<R> {
    fn read(&mut self, buf: &mut [u8]) -> io::Result<usize> {
        match self {
            Input::Standard(reader) => reader.read(buf),
            Input::Named(file) => file.read(buf),
        }
    }
}

/// The subcommands, as the command line has them.
pub(crate) const SUBCOMMANDS: [&str; 7] = [
    "replay", "settings", "verify", "upgrade", "record", "live", "help",
];

/// Returns the subcommand that is nearest to a word, unless the word looks like a file's name.
pub(crate) fn nearest_command(word: &str) -> Option<&'static str> {
    match word.contains('.') || word.contains('/') {
        true => None,
        false => nearest(word.as_bytes(), &SUBCOMMANDS),
    }
}

/// Whether a word of the command line begins a line of a script.
pub(crate) fn begins_line(word: &str) -> bool {
    COMMANDS.contains(&word)
}

/// Writes where a line is typed that was given as words of the command line, of which this is the first.
pub(crate) fn explain_line(rt: &impl Runtime, word: &str) {
    let _ = eprintln!(rt;
        "dsctl: `{word}` begins a line of a script: type the line at dsctl's prompt, or pipe it into dsctl"
    );
}

// Writes why a file can't be opened, with the nearest subcommand if its name may be one.
fn tell_unopened(rt: &impl Runtime, name: &str, error: io::Error) {
    if begins_line(name) && error.kind() == io::ErrorKind::NotFound {
        explain_line(rt, name);
        return;
    }
    match nearest_command(name) {
        Some(near) => {
            let near = IfNear(Some(near));
            let _ = eprintln!(rt;
                "dsctl: `{name}` is neither a command{near}, nor a file: {error}"
            );
        }
        None => {
            let _ = eprintln!(rt; "dsctl: `{name}` can't be opened: {error}");
        }
    }
}
