//! The lines of a replay.

ghost use Rattle.std.specs.Prelude.{◌≡◌, ◌<◌, ◌≤◌, ◌+◌, ◌^◌, suc, length, OnOk, IfErr};
ghost use Rattle.line_io.specs.Lines.{EndsLine, IsUnbroken};
ghost use Rattle.ds_script.specs.Taking.{IsShortFront, KeepsWriter, TakesLine};
ghost use Rattle.ds_script.specs.Taking.{TakesBad, TakesWhole, TakesFront, TakesLast, TakesUnended};

use crate::bad_line::{end_at, pass_over};
use crate::fault::ReplayFault;
use crate::line::answer_line;
use crate::report::{BadLine, BadLines, Report};
use crate::session::Session;
use crate::tally::Tally;
use ds_line::Expected;
use line_io::{LONGEST_LINE, Lines, Sink, send, send_full};
use script_commands::CommandFault;
use std::alloc::Global;

/// The most bytes kept of a line whose end wasn't read, where bad lines don't end the replay.
const MOST_KEPT: usize = 16777216;

/// A replay under way.
#[derive(Drop)]
pub(crate) struct Replay<'a, W, B> {
    pub alloc: Global,
    pub writer: &'a mut W,
    pub report: &'a mut B,
    pub session: Session,
    pub output: Vec<u8>,
    pub tally: Tally,
    pub bad_lines: BadLines,
}

impl<W: Sink, B: Report> Replay<'_, W, B> {
    // Answers one line, given with its newline. Writes the waiting answers first if they are many.
    fn take_line(&mut self, line: &[u8]) -> Result<(), ReplayFault>
        requires line { EndsLine line.now }
        requires few { self.old.tally.lines < 2 ^ 62 }
        ensures same { KeepsWriter self.old self.new }
        ensures takes { TakesLine W.Sink self.old self.new line.now result }
    {
        send_full(self.writer, &mut self.output)?;
        let before = self.tally.lines;
        match answer_line(
            self.alloc,
            line,
            before,
            &mut self.session,
            &mut self.output,
        ) {
            Ok(()) => {
                self.tally.lines += 1;
                Ok(())
            }
            Err(CommandFault::BadLine { place, expected }) => {
                let bad = BadLine {
                    number: before + 1,
                    place,
                    expected,
                    text: &line[..line.len() - 1],
                };
                self.take_bad(&bad)
            }
            Err(CommandFault::NoRoom) => Err(ReplayFault::NoRoom),
        }
    }

    // Passes over a line that can't be read, and counts it; or ends there.
    fn take_bad(&mut self, bad: &BadLine<'_>) -> Result<(), ReplayFault>
        requires few { self.old.tally.lines < 2 ^ 62 }
        requires number { bad.now.number ≡ suc self.old.tally.lines }
        ensures same { KeepsWriter self.old self.new }
        ensures takes { TakesBad W.Sink self.old self.new bad.now.place result }
    {
        match self.bad_lines {
            BadLines::End => Err(end_at(self.writer, self.report, bad, &mut self.output)),
            BadLines::GoOn => {
                pass_over(self.writer, self.report, bad, &mut self.output)?;
                self.tally.lines += 1;
                self.tally.bad += 1;
                Ok(())
            }
        }
    }

    /// Answers all whole lines that were read.
    pub(crate) fn take_whole(&mut self, lines: &mut Lines) -> Result<(), ReplayFault>
        requires count { self.old.tally.lines ≤ lines.old.count + 2 ^ 32 }
        ensures same { KeepsWriter self.old self.new }
        ensures takes { TakesWhole W.Sink self.old self.new lines.old.rest lines.new.rest result }
        ensures count { OnOk result (self.new.tally.lines ≤ lines.new.count + 2 ^ 32) }
        ensures reads { lines.new.reads ≡ lines.old.reads }
        ensures short { OnOk result (IsShortFront self.new.bad_lines (length lines.new.rest)) }
    {
        while lines.next() {
            self.take_line(lines.line())?;
        }
        self.judge_front(lines.front())
    }

    // Judges the front of a line whose end wasn't read. Where a bad line ends the replay, one above 4096 bytes is bad
    // already.
    fn judge_front(&mut self, front: &[u8]) -> Result<(), ReplayFault>
        requires front { IsUnbroken front.now }
        requires few { self.old.tally.lines < 2 ^ 62 }
        ensures same { KeepsWriter self.old self.new }
        ensures takes { TakesFront W.Sink self.old self.new front.now result }
        ensures short { OnOk result (IsShortFront self.new.bad_lines (length front.now)) }
        ensures room { IfErr result (λ fault. fault ≡ ReplayFault.NoRoom → 16777216 < length front.now) }
    {
        match self.bad_lines {
            BadLines::End if front.len() > LONGEST_LINE => {
                let bad = BadLine {
                    number: self.tally.lines + 1,
                    place: LONGEST_LINE,
                    expected: Expected::Limit,
                    text: front,
                };
                Err(end_at(self.writer, self.report, &bad, &mut self.output))
            }
            BadLines::GoOn if front.len() > MOST_KEPT => Err(ReplayFault::NoRoom),
            _ => Ok(()),
        }
    }

    /// Answers the last line if its newline is missing, and writes the waiting answers.
    pub(crate) fn take_last(&mut self, lines: &mut Lines) -> Result<(), ReplayFault>
        requires unbroken { IsUnbroken lines.old.rest }
        requires count { self.old.tally.lines ≤ lines.old.count + 2 ^ 32 }
        ensures same { KeepsWriter self.old self.new }
        ensures takes { TakesLast W.Sink self.old self.new lines.old.rest result }
    {
        self.take_unended(lines)?;
        send(self.writer, &mut self.output)?;
        Ok(())
    }

    // Answers the last line if its newline is missing.
    fn take_unended(&mut self, lines: &mut Lines) -> Result<(), ReplayFault>
        requires unbroken { IsUnbroken lines.old.rest }
        requires count { self.old.tally.lines ≤ lines.old.count + 2 ^ 32 }
        ensures same { KeepsWriter self.old self.new }
        ensures takes { TakesUnended W.Sink self.old self.new lines.old.rest result }
    {
        match lines.last() {
            Ok(true) => self.take_line(lines.line()),
            Ok(false) => Ok(()),
            Err(_) => Err(ReplayFault::NoRoom),
        }
    }
}
