//! Why a walk through a trace ends early.

ghost use Rattle.std.specs.Prelude.{◌≡◌};
ghost use Rattle.trace_walk.specs.Walking.{of_line, of_reply, verdict_of};

use crate::asked::AskedFault;
use crate::entry::EntryFault;
use crate::verdict::Verdict;
use ds_names::NoRoom;
use std::alloc::AllocError;

/// Why a walk through a trace ended before its input did.
#[derive(Clone, Copy, PartialEq, Eq)]
pub enum WalkFault {
    /// The line with this number, from 1, must be a reply line, and no legal trace has it there.
    IllegalAt(u64),
    /// The line with this number, from 1, must be a header, a `>` or a `+` line, and no legal trace has it there.
    BadLineAt(u64),
    /// The reader failed, or 2^32 reads were made.
    ReadFault,
    /// Out of memory.
    NoRoom,
}

impl WalkFault {
    /// Returns the fault of a line that can't be read.
    pub(crate) fn of_line(fault: AskedFault, number: u64) -> WalkFault
        ensures { result ≡ of_line fault number }
    {
        match fault {
            AskedFault::BadLine => WalkFault::BadLineAt(number),
            AskedFault::NoRoom => WalkFault::NoRoom,
        }
    }

    /// Returns the fault of an entry's lines where a reply line must follow.
    pub(crate) fn of_reply(fault: EntryFault) -> WalkFault
        ensures { result ≡ of_reply fault }
    {
        match fault {
            EntryFault::BadLine(number) => WalkFault::IllegalAt(number),
            EntryFault::ReadFault => WalkFault::ReadFault,
            EntryFault::NoRoom => WalkFault::NoRoom,
        }
    }

    /// Returns the verdict for the fault.
    pub fn verdict(self) -> Verdict
        ensures { result ≡ verdict_of self }
    {
        match self {
            WalkFault::IllegalAt(number) => Verdict::IllegalAt(number),
            WalkFault::BadLineAt(number) => Verdict::BadLineAt(number),
            WalkFault::ReadFault => Verdict::ReadFault,
            WalkFault::NoRoom => Verdict::NoRoom,
        }
    }
}

impl From<EntryFault> for WalkFault {
    ghost use Rattle.std.specs.Prelude.{◌≡◌};
    ghost use Rattle.trace_walk.specs.Walking.{of_entry};

    ghost from_gives = { λ fault given. given ≡ of_entry fault };

    fn from(fault: EntryFault) -> WalkFault {
        match fault {
            EntryFault::BadLine(number) => WalkFault::BadLineAt(number),
            EntryFault::ReadFault => WalkFault::ReadFault,
            EntryFault::NoRoom => WalkFault::NoRoom,
        }
    }
}

impl From<NoRoom> for WalkFault {
    ghost use Rattle.std.specs.Prelude.{◌≡◌};
    ghost use Rattle.trace_walk.specs.declared.fault.WalkFault.TheVariants as faults;

    ghost from_gives = { λ no_room fault. fault ≡ faults.NoRoom };

    fn from(_no_room: NoRoom) -> WalkFault {
        WalkFault::NoRoom
    }
}

impl From<AllocError> for WalkFault {
    ghost use Rattle.std.specs.Prelude.{◌≡◌};
    ghost use Rattle.trace_walk.specs.declared.fault.WalkFault.TheVariants as faults;

    ghost from_gives = { λ no_room fault. fault ≡ faults.NoRoom };

    fn from(_failed: AllocError) -> WalkFault {
        WalkFault::NoRoom
    }
}
