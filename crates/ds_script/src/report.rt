//! What happens at lines that can't be read, and how a caller learns of them.

use ds_line::Expected;

/// What a replay does at a line that isn't a command.
#[derive(Clone, Copy, PartialEq, Eq)]
pub enum BadLines {
    /// Ends there. The line has no answer.
    End,
    /// Answers `badline` with the line's number and place, changes nothing, and continues.
    GoOn,
}

/// A line that isn't a command.
#[derive(Clone, Copy)]
pub struct BadLine<'a> {
    /// Its number, from 1.
    pub number: u64,
    /// The byte, from 0, where the first part that can't be read begins.
    pub place: usize,
    /// What was expected there.
    pub expected: Expected,
    /// Its bytes. Of a line above 4096 bytes, perhaps only a front longer than that.
    pub text: &'a [u8],
}

/// A receiver of the lines that can't be read.
pub trait Report {
    /// Receives a line that can't be read, after the answers to the lines before it, and its own if it has one, are
    /// written.
    fn bad_line(&mut self, line: &BadLine<'_>);
}

/// A receiver that ignores them.
#[derive(Clone, Copy)]
pub(crate) struct Nobody;

impl Report for Nobody {
    fn bad_line(&mut self, _line: &BadLine<'_>) {}
}
