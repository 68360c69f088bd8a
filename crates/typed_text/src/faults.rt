//! The faults of a settings text, in the order of their lines.

use crate::settings_fault::Place;
use ds_names::NoRoom;
use std::alloc::Global;
use std::fmt;
use std::rt::Runtime;

/// Sentences about faults, each with its line. Those without a line come first.
#[derive(Drop)]
pub(crate) struct Faults {
    alloc: Global,
    told: Vec<Told>,
}

// A sentence about a fault, and the line that it is about.
#[derive(Drop)]
struct Told {
    line: usize,
    text: String,
}

impl Faults {
    /// Returns no faults.
    pub(crate) fn new(alloc: Global) -> Faults {
        Faults {
            alloc,
            told: Vec::new(alloc),
        }
    }

    /// Adds a fault after those of its line and of lines before it.
    ///
    /// NoRoom: out of memory.
    pub(crate) fn add(
        &mut self,
        place: Place<'_>,
        said: impl fmt::Display + Drop,
    ) -> Result<(), NoRoom> {
        let line = place.line.unwrap_or(0);
        let text = format!(in self.alloc; "dsctl: {place}{said}")?;
        let before = self.told.iter().take_while(|it| it.line <= line).count();
        let index = before.min(self.told.len());
        self.told.insert(index, Told { line, text })?;
        Ok(())
    }

    /// Writes the faults to standard error, a line each. A failed write is ignored.
    pub(crate) fn write(&self, rt: &impl Runtime) {
        for told in self.told.iter() {
            let text = told.text.as_str();
            let _ = rt.eprintln(text);
        }
    }
}
