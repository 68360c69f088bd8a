//! Answers a script.

use crate::keeping::{Files, load, save};
use crate::stepped::{LineNumber, Stepped};
use ds_explain::{Audience, explain};
use ds_script::{
    BadLine, BadLines, RING, ReplayFault, Replayed, Report, Session, replay_reporting,
    replay_without_notes,
};
use dsctl_cli::{Answers, Failure, Greeting, Input, LastLine, Replaying, Terminals, Typed, greet};
use line_io::{Plain, Sink, Source};
use std::alloc::Global;
use std::io::{self, Read};
use std::process::ExitCode;
use std::rt::Runtime;
use typed_text::TextKind;

// Returns what happens at bad lines: what the command line says, else a script ends there and a terminal continues.
fn bad_lines(go_on: Option<bool>, terminals: Terminals) -> BadLines {
    if go_on.unwrap_or(terminals.are_both()) {
        BadLines::GoOn
    } else {
        BadLines::End
    }
}

// Returns who reads the explanations of bad lines.
fn audience(terminals: Terminals) -> Audience {
    if terminals.are_both() {
        Audience::Prompt
    } else if terminals.error {
        Audience::Terminal
    } else {
        Audience::File
    }
}

// Returns the greeting for a script.
fn greeting(bad_lines: BadLines) -> Greeting {
    match bad_lines {
        BadLines::End => Greeting::ScriptToStop,
        BadLines::GoOn => Greeting::Script,
    }
}

// Explains each bad line, and prints `badline` with its number and place if it ends the script.
#[derive(Drop)]
struct Explainer<'a, R> {
    rt: &'a R,
    audience: Audience,
    bad_lines: BadLines,
    // How many lines the session had before.
    before: u32,
    // The line of the input, if lines are passed over: they have no number.
    line: Option<&'a LineNumber>,
    // The kind of the text, if its front shows it.
    kind: Option<TextKind>,
    unwritten: Option<io::Error>,
}

impl<R: Runtime + AllocGlobal> Report for Explainer<'_, R> {
    fn bad_line(&mut self, line: &BadLine<'_>) {
        if self.bad_lines == BadLines::End {
            let number = line.number;
            let place = line.place;
            if let Err(error) = println!(self.rt; "badline {number} {place}") {
                self.unwritten = Some(error);
                return;
            }
        }
        let number = match self.line {
            Some(line) => line.get(),
            None => line.number.saturating_sub(self.before as u64),
        };
        let line = BadLine { number, ..*line };
        explain(self.rt, self.audience, &line, self.kind);
    }
}

/// Answers a script, of either format, in a new session or in one that a script left, and saves its store if that is
/// asked for. Greets and prompts a user at a terminal.
pub(crate) fn replay_input<R: Runtime + AllocGlobal>(
    rt: &R,
    terminals: Terminals,
    input: Input<R>,
    replaying: Replaying,
    files: Files<'_>,
) -> Result<ExitCode, Failure> {
    let Ok(session) = Session::open(rt.alloc(), RING) else {
        return Err(Failure::NoRoom);
    };
    let (session, before) = load(rt, terminals, session, files.load)?;
    let bad_lines = bad_lines(replaying.go_on, terminals);
    greet(rt, terminals, greeting(bad_lines));
    let last = LastLine::new();
    let line = LineNumber::new();
    let typed = Typed::prompted(rt, input, terminals, &last);
    let mut reader = Plain::new(Stepped::new(rt, typed, replaying.ends, &line));
    let has_notes = reader
        .inner
        .take_header()
        .map_err(|error| Failure::ReadFault(Some(error)))?;
    let mut writer = Plain::new(Answers::explained(rt, io::writer(rt), terminals, &last));
    let mut explainer = Explainer {
        rt,
        audience: audience(terminals),
        bad_lines,
        before,
        line: has_notes.then_some(&line),
        kind: kind_of(&reader.inner, terminals, has_notes),
        unwritten: None,
    };
    let replayed = answer(
        rt.alloc(),
        session,
        before,
        &mut reader,
        &mut writer,
        &mut explainer,
        bad_lines,
        has_notes,
    );
    let (bad, session) = match replayed {
        Ok(Replayed { bad, session, .. }) => (Ok(bad), Some(session)),
        Err(fault) => (Err(fault), None),
    };
    let status = outcome(
        bad,
        terminals,
        explainer.unwritten.or(reader.inner.unwritten),
        reader.fault,
        writer.fault,
    )?;
    if let Err(error) = reader.inner.end_answer() {
        return Err(Failure::WriteFault(Some(error)));
    }
    if let Some(session) = &session {
        save(rt, session, files.save)?;
    }
    Ok(status)
}

/// Answers the lines of a script that continues a session of `before` lines. `has_notes`: its format has empty lines and
/// comments, which are passed over.
pub(crate) fn answer<R: Source, W: Sink, B: Report>(
    alloc: Global,
    session: Session,
    before: u32,
    reader: &mut R,
    writer: &mut W,
    report: &mut B,
    bad_lines: BadLines,
    has_notes: bool,
) -> Result<Replayed, ReplayFault> {
    if has_notes {
        replay_without_notes(alloc, session, before, reader, writer, report, bad_lines)
    } else {
        replay_reporting(alloc, session, before, reader, writer, report, bad_lines)
    }
}

// Returns the kind of a text that isn't typed and doesn't name its format, by what was read of it.
fn kind_of<R: Runtime, I: Read>(
    input: &Stepped<'_, R, I>,
    terminals: Terminals,
    has_notes: bool,
) -> Option<TextKind> {
    match has_notes || terminals.are_both() {
        true => None,
        false => TextKind::of(input.waiting()),
    }
}

// Returns the exit status of a replay, or why printing a bad line's place, reading or answering failed. Bad lines that were skipped at the
// prompt don't count.
fn outcome(
    bad: Result<u64, ReplayFault>,
    terminals: Terminals,
    unwritten: Option<io::Error>,
    unread: Option<io::Error>,
    unanswered: Option<io::Error>,
) -> Result<ExitCode, Failure> {
    match bad {
        Ok(0) => Ok(ExitCode::SUCCESS),
        Ok(_) if terminals.are_both() => Ok(ExitCode::SUCCESS),
        Err(ReplayFault::BadLine { .. } | ReplayFault::ReadFault) if unwritten.is_some() => {
            Err(Failure::WriteFault(unwritten))
        }
        Ok(_) | Err(ReplayFault::BadLine { .. }) => Ok(ExitCode::from(1)),
        Err(ReplayFault::ReadFault) => Err(Failure::ReadFault(unread)),
        Err(ReplayFault::WriteFault) => Err(Failure::WriteFault(unanswered)),
        Err(ReplayFault::NoRoom) => Err(Failure::NoRoom),
    }
}
