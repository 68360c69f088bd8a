//! Why a replay ends early.

use ds_line::Expected;
use ds_names::NoRoom;
use line_io::WriteFailed;
use thiserror::Error;

/// Why a replay ended before its input did.
#[derive(Clone, Copy, Debug, PartialEq, Eq, Error)]
pub enum ReplayFault {
    /// A line that isn't a command: its number, from 1, and the byte, from 0, where the first part that can't be read
    /// begins, with what was expected there. A line above 4096 bytes is bad at 4096.
    #[error("line {line} can't be read from byte {place} on")]
    BadLine {
        line: u64,
        place: usize,
        expected: Expected,
    },
    /// The reader failed, or 2^32 reads were made.
    #[error("the input can't be read")]
    ReadFault,
    /// The writer failed, or took no bytes.
    #[error("the answers can't be written")]
    WriteFault,
    /// Out of memory for a line or its answer.
    #[error("out of memory")]
    NoRoom,
}

impl From<WriteFailed> for ReplayFault {
    ghost use Rattle.std.specs.Prelude.{◌≡◌};
    ghost use Rattle.ds_script.specs.declared.fault.ReplayFault.TheVariants as faults;

    ghost from_gives = { λ failed fault. fault ≡ faults.WriteFault };

    fn from(_failed: WriteFailed) -> ReplayFault {
        ReplayFault::WriteFault
    }
}

impl From<NoRoom> for ReplayFault {
    ghost use Rattle.std.specs.Prelude.{◌≡◌};
    ghost use Rattle.ds_script.specs.declared.fault.ReplayFault.TheVariants as faults;

    ghost from_gives = { λ no_room fault. fault ≡ faults.NoRoom };

    fn from(_no_room: NoRoom) -> ReplayFault {
        ReplayFault::NoRoom
    }
}
