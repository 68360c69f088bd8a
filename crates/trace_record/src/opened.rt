//! A recording that begins.

use crate::fault::RecordFault;
use crate::recorder::Recorder;

/// A recording that begins: its store is open, and the first line of a command was read. Nothing is written yet.
#[derive(Drop)]
pub struct Recording {
    pub(crate) recorder: Recorder,
    // The result of reading the first command's line.
    pub(crate) next: Result<bool, RecordFault>,
}
