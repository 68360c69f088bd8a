//! Why a recording ends early.

ghost use Rattle.std.specs.Prelude.{◌≡◌};
ghost use Rattle.trace_record.specs.Reading.{of_lines};

use ds_names::NoRoom;
use line_io::WriteFailed;
use std::alloc::AllocError;
use thiserror::Error;
use trace_walk::EntryFault;

/// Why a recording ended before its input did.
#[derive(Clone, Copy, Debug, PartialEq, Eq, Error)]
pub enum RecordFault {
    /// A line that isn't a command: its number, from 1, and the byte, from 0, where the first part that can't be read
    /// begins. An item that is missing after the last line is bad at its first byte.
    #[error("line {line} can't be read from byte {place} on")]
    BadLine { line: u64, place: usize },
    /// The reader failed, or 2^32 reads were made.
    #[error("the input can't be read")]
    ReadFault,
    /// The writer failed, or took no bytes.
    #[error("the trace can't be written")]
    WriteFault,
    /// Out of memory for a line, for its command, or for the text of the reply.
    #[error("out of memory")]
    NoRoom,
}

impl RecordFault {
    /// Returns the fault of lines that can't be read on. A bad line is bad at this byte.
    pub(crate) fn of_lines(fault: EntryFault, place: usize) -> RecordFault
        ensures { result ≡ of_lines fault place }
    {
        match fault {
            EntryFault::BadLine(line) => RecordFault::BadLine { line, place },
            EntryFault::ReadFault => RecordFault::ReadFault,
            EntryFault::NoRoom => RecordFault::NoRoom,
        }
    }
}

impl From<WriteFailed> for RecordFault {
    ghost use Rattle.std.specs.Prelude.{◌≡◌};
    ghost use Rattle.trace_record.specs.declared.fault.RecordFault.TheVariants as faults;

    ghost from_gives = { λ failed fault. fault ≡ faults.WriteFault };

    fn from(_failed: WriteFailed) -> RecordFault {
        RecordFault::WriteFault
    }
}

impl From<NoRoom> for RecordFault {
    ghost use Rattle.std.specs.Prelude.{◌≡◌};
    ghost use Rattle.trace_record.specs.declared.fault.RecordFault.TheVariants as faults;

    ghost from_gives = { λ no_room fault. fault ≡ faults.NoRoom };

    fn from(_no_room: NoRoom) -> RecordFault {
        RecordFault::NoRoom
    }
}

impl From<AllocError> for RecordFault {
    ghost use Rattle.std.specs.Prelude.{◌≡◌};
    ghost use Rattle.trace_record.specs.declared.fault.RecordFault.TheVariants as faults;

    ghost from_gives = { λ no_room fault. fault ≡ faults.NoRoom };

    fn from(_failed: AllocError) -> RecordFault {
        RecordFault::NoRoom
    }
}
