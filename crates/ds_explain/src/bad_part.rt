//! Explains the first bad part of a command, wherever in a line the command begins.

use crate::found::Found;
use crate::stray::stray_at;
use crate::wanted::{part, wanted};
use ds_line::Expected;
use ds_names::{is_name_byte, read_byte};
use line_io::{LONGEST_LINE, split_line};
use script_commands::{CommandFault, ScriptCommand, read_line};
use std::alloc::Global;
use std::rt::Runtime;
use typed_text::TextKind;

/// The most bytes of a name.
const LONGEST_NAME: usize = 64;

/// The first bad part of a command's text.
#[derive(Clone, Copy)]
pub(crate) struct BadPart<'a> {
    /// The number of the text's line, from 1.
    pub number: u64,
    /// The text as a script has it, without its newline.
    pub text: &'a [u8],
    /// The byte of the text at which the part begins.
    pub place: usize,
    /// The part that was expected there.
    pub expected: Expected,
    /// How many bytes of the line come before the text.
    pub before: usize,
    /// How many bytes at the front of the text aren't in the line.
    pub added: usize,
}

impl<'a> BadPart<'a> {
    /// Writes this sentence about the place.
    pub(crate) fn say(&self, rt: &impl Runtime, said: &str) {
        say_at(rt, self.number, self.place_in_line(), said);
    }

    /// Returns the byte of the line at which the part begins.
    fn place_in_line(&self) -> usize {
        self.before
            .saturating_add(self.place)
            .saturating_sub(self.added)
    }

    /// Returns the text from the place on.
    pub(crate) fn rest(&self) -> &'a [u8] {
        match self.text.get(self.place..) {
            Some(rest) => rest,
            None => &[],
        }
    }

    /// Returns a sentence about what is at the place, if that says more than what was expected.
    pub(crate) fn stray(&self) -> Option<&'static str> {
        match self.expected {
            Expected::Limit => None,
            _ => stray_at(self.text, self.place, self.rest()),
        }
    }

    /// Writes which part was expected.
    pub(crate) fn explain(&self, rt: &(impl Runtime + AllocGlobal)) {
        match self.expected {
            Expected::Name | Expected::Owner | Expected::Label => self.explain_name(rt),
            Expected::Space => self.explain_space(rt),
            Expected::Limit => self.say(rt, wanted(Expected::Limit)),
            other => self.say_found(rt, wanted(other)),
        }
    }

    // Writes this sentence about what was expected, and what was found.
    fn say_found(&self, rt: &impl Runtime, wanted: &str) {
        say_found_at(rt, self.number, self.place_in_line(), wanted, self.rest());
    }

    // Names the missing space, and the part that comes after it.
    fn explain_space(&self, rt: &(impl Runtime + AllocGlobal)) {
        match self.part_after(rt.alloc()) {
            Some(expected) => {
                let place = self.place_in_line();
                say_space_at(rt, self.number, place, part(expected), self.rest());
            }
            None => self.say_found(rt, wanted(Expected::Space)),
        }
    }

    // Returns the part that comes after a missing space: the first bad part of the text that ends with that space.
    fn part_after(&self, alloc: Global) -> Option<Expected> {
        let front = self.text.get(..self.place)?;
        let count = front.len();
        if count > LONGEST_LINE {
            return None;
        }
        let mut block = [b'\n'; LONGEST_LINE + 2];
        block[..count].copy_from_slice(front);
        block[count] = b' ';
        let (line, _) = split_line(&block)?;
        expected_of(&read_line(alloc, line))
    }

    // Names a name, owner or label, and how long it is if that is too long.
    fn explain_name(&self, rt: &impl Runtime) {
        let wanted = wanted(self.expected);
        let count = name_bytes(self.rest());
        if count > LONGEST_NAME {
            let number = self.number;
            let place = self.place_in_line();
            let _ = eprintln!(rt;
                "dsctl: line {number}, byte {place}: {wanted}; {count} were found"
            );
        } else {
            self.say_found(rt, wanted);
        }
    }
}

/// Writes this sentence about a byte of a line.
pub(crate) fn say_at(rt: &impl Runtime, number: u64, place: usize, said: &str) {
    let _ = eprintln!(rt; "dsctl: line {number}, byte {place}: {said}");
}

/// Writes this sentence about a byte of a line, and what was found there.
pub(crate) fn say_found_at(rt: &impl Runtime, number: u64, place: usize, said: &str, rest: &[u8]) {
    let found = Found(rest);
    let _ = eprintln!(rt; "dsctl: line {number}, byte {place}: {said}; {found} was found");
}

/// Writes that a space is missing at a byte of a line, the part that comes after the space, and what was found.
pub(crate) fn say_space_at(rt: &impl Runtime, number: u64, place: usize, part: &str, rest: &[u8]) {
    let found = Found(rest);
    let _ = eprintln!(rt;
        "dsctl: line {number}, byte {place}: a space was expected, and then {part}; {found} was found"
    );
}

/// Writes that a line of another kind of text isn't a command.
pub(crate) fn say_kind_at(rt: &impl Runtime, number: u64, kind: TextKind) {
    let _ = eprintln!(rt; "dsctl: line {number}, byte 0: a command was expected; {kind}");
}

fn expected_of(read: &Result<ScriptCommand, CommandFault>) -> Option<Expected> {
    match read {
        Err(CommandFault::BadLine { expected, .. }) => Some(*expected),
        _ => None,
    }
}

// Returns how many bytes of a name the text begins with.
fn name_bytes(text: &[u8]) -> usize {
    text.iter().take_while(|byte| is_name_byte(**byte)).count()
}
