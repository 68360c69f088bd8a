//! A store that outlives the program: the script that a replay begins with, and the file that gets its store.

use crate::replaying::answer;
use crate::stepped::{LineNumber, Stepped};
use ds_explain::{Audience, explain};
use ds_script::{BadLine, BadLines, ReplayFault, Replayed, Report, Session, append_saved};
use dsctl_cli::{Failure, Input, Terminals, Typed};
use line_io::Plain;
use std::fs::{self, OpenFile, OpenOptions};
use std::io::{self, ErrorKind, Write};
use std::rt::Runtime;
use typed_text::TextKind;

/// The files that the command line names.
#[derive(Clone, Copy)]
pub(crate) struct Files<'a> {
    /// The input; `None`, and `-`, are standard input.
    pub(crate) script: Option<&'a str>,
    /// The script to begin with.
    pub(crate) load: Option<&'a str>,
    /// The file that gets the store.
    pub(crate) save: Option<&'a str>,
}

// The answers of a script to begin with. They aren't printed; a refusal among them is noted.
#[derive(Drop)]
struct Unshown {
    // How many bytes of the current line are those of `REFUSED`, or `None` once one isn't.
    matched: Option<usize>,
    is_refused: bool,
}

// The word that a refusal begins with.
const REFUSED: &[u8] = b"refused ";

impl Unshown {
    fn see(&mut self, byte: u8) {
        let wanted = self.matched.and_then(|place| REFUSED.get(place));
        self.matched = match (byte, self.matched) {
            (b'\n', _) => Some(0),
            (_, Some(place)) if wanted == Some(&byte) => Some(place.saturating_add(1)),
            _ => None,
        };
        if self.matched == Some(REFUSED.len()) {
            self.is_refused = true;
        }
    }
}

impl Write for Unshown {
    fn write(&mut self, buf: &[u8]) -> io::Result<usize> {
        for byte in buf {
            self.see(*byte);
        }
        Ok(buf.len())
    }

    fn flush(&mut self) -> io::Result<()> {
        Ok(())
    }
}

// Explains the bad line of a script to begin with.
#[derive(Drop)]
struct Unloadable<'a, R> {
    rt: &'a R,
    name: &'a str,
    audience: Audience,
    // The line of the file, if lines are passed over.
    line: Option<&'a LineNumber>,
    kind: Option<TextKind>,
}

impl<R: Runtime + AllocGlobal> Report for Unloadable<'_, R> {
    fn bad_line(&mut self, line: &BadLine<'_>) {
        let name = self.name;
        let _ = eprintln!(self.rt; "dsctl: `{name}` can't be loaded, it has a bad line:");
        let number = match self.line {
            Some(line) => line.get(),
            None => line.number,
        };
        let line = BadLine { number, ..*line };
        explain(self.rt, self.audience, &line, self.kind);
    }
}

/// Answers a script in a new session, without printing its answers, and returns the session, with how many lines the
/// script has. A script with a bad line, or with one that is refused, isn't loaded, as standard error says.
pub(crate) fn load<'a, R: Runtime + AllocGlobal>(
    rt: &'a R,
    terminals: Terminals,
    session: Session,
    name: Option<&'a str>,
) -> Result<(Session, u32), Failure> {
    let Some(name) = name else {
        return Ok((session, 0));
    };
    let Ok(input) = Input::open(rt, Some(name)) else {
        return Err(Failure::Unopened);
    };
    let mut writer = Plain::new(Unshown {
        matched: Some(0),
        is_refused: false,
    });
    let begun = load_input(rt, terminals, session, name, input, &mut writer)?;
    if writer.inner.is_refused {
        let _ = eprintln!(rt;
            "dsctl: `{name}` can't be loaded, one of its lines is refused: dsctl {name} shows it"
        );
        return Err(Failure::Unloaded);
    }
    Ok(begun)
}

// Like `load`, for the input that the file is. The writer notes a refusal.
fn load_input<'a, R: Runtime + AllocGlobal>(
    rt: &'a R,
    terminals: Terminals,
    session: Session,
    name: &'a str,
    input: Input<R>,
    writer: &mut Plain<Unshown>,
) -> Result<(Session, u32), Failure> {
    let line = LineNumber::new();
    let typed = Typed::unprompted(rt, input);
    let mut reader = Plain::new(Stepped::new(rt, typed, false, &line));
    let has_notes = reader
        .inner
        .take_header()
        .map_err(|error| Failure::ReadFault(Some(error)))?;
    let mut report = Unloadable {
        rt,
        name,
        audience: audience(terminals),
        line: has_notes.then_some(&line),
        kind: TextKind::of(reader.inner.waiting()),
    };
    let answered = answer(
        rt.alloc(),
        session,
        0,
        &mut reader,
        writer,
        &mut report,
        BadLines::End,
        has_notes,
    );
    loaded(answered, reader.fault)
}

fn audience(terminals: Terminals) -> Audience {
    match terminals.error {
        true => Audience::Terminal,
        false => Audience::File,
    }
}

// Returns the session and the count of lines, or why the script isn't loaded.
fn loaded(
    replayed: Result<Replayed, ReplayFault>,
    unread: Option<io::Error>,
) -> Result<(Session, u32), Failure> {
    match replayed {
        Ok(Replayed { lines, session, .. }) => {
            Ok((session, u32::try_from(lines).unwrap_or(u32::MAX)))
        }
        Err(ReplayFault::BadLine { .. }) => Err(Failure::Unloaded),
        Err(ReplayFault::ReadFault) => Err(Failure::ReadFault(unread)),
        Err(ReplayFault::WriteFault | ReplayFault::NoRoom) => Err(Failure::NoRoom),
    }
}

/// Writes the store of a session to a file, as a script. A file that exists is unchanged until the whole script is on the
/// disk under the name with `.new`, which then takes its place. A link, a pipe or a device is written itself.
pub(crate) fn save<R: Runtime + AllocGlobal>(
    rt: &R,
    session: &Session,
    name: Option<&str>,
) -> Result<(), Failure> {
    let Some(name) = name else {
        return Ok(());
    };
    let mut script = Vec::new(rt.alloc());
    if append_saved(rt.alloc(), session, &mut script).is_err() {
        return Err(Failure::NoRoom);
    }
    let Ok(new) = format!(in rt.alloc(); "{name}.new") else {
        return Err(Failure::NoRoom);
    };
    let written = match is_replaced(rt, name) {
        true => replace(rt, name, new.as_str(), &script),
        false => write_to(rt, name, &script).map(|_file| ()),
    };
    written.map_err(Failure::Unsaved)
}

// Whether another file may take the place of what has this name: a file, or nothing. A link, a pipe or a device stays.
fn is_replaced(rt: &impl Runtime, name: &str) -> bool {
    match fs::symlink_metadata(rt, name) {
        Ok(found) => found.is_file(),
        Err(error) => error.kind() == ErrorKind::NotFound,
    }
}

fn replace(rt: &impl Runtime, name: &str, new: &str, script: &[u8]) -> io::Result<()> {
    write_to(rt, new, script)?.sync_all()?;
    fs::rename(rt, new, name)
}

// Writes the script to what has this name, and returns it, still open.
fn write_to<R: Runtime>(rt: &R, name: &str, script: &[u8]) -> io::Result<R::File> {
    let mut file = OpenOptions::new()
        .write(true)
        .create(true)
        .truncate(true)
        .open(rt, name)?;
    file.write_all(script)?;
    Ok(file)
}
