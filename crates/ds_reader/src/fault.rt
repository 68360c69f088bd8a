//! Why a store isn't read whole.

use ds_machine::Refusal;
use ds_names::NoRoom;
use thiserror::Error;

/// Why a reader gives up.
#[derive(Clone, Copy, Debug, PartialEq, Eq, Error)]
pub enum ReadFault {
    /// The store refused a command; as Behind if its journal no longer reaches back to the first page.
    #[error("the store refused a question")]
    Refused(Refusal),
    /// The reader is out of memory.
    #[error("out of memory")]
    NoRoom,
    /// The allowed number of commands wasn't enough.
    #[error("as many questions as may be weren't enough")]
    Unfinished,
    /// Another client took the subscription over.
    #[error("another took the subscription over")]
    Overtaken,
    /// No command can be sent any more.
    #[error("nothing can be asked any more")]
    Worn,
}

impl From<NoRoom> for ReadFault {
    ghost use Rattle.std.specs.Prelude.{◌≡◌};
    ghost use Rattle.ds_reader.specs.declared.fault.ReadFault.TheVariants as faults;

    ghost from_gives = { λ _ fault. fault ≡ faults.NoRoom };

    fn from(_refused: NoRoom) -> ReadFault {
        ReadFault::NoRoom
    }
}
