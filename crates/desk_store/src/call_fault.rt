//! Why a call of a store at a desk failed.

use desk::DeskFault;
use ds_machine::Refusal;
use ds_names::NoRoom;
use thiserror::Error;

/// Why a call of a store at a desk failed. The desk's refusal comes first.
#[derive(Clone, Copy, Debug, PartialEq, Eq, Error)]
pub enum CallFault {
    /// The desk refused the call.
    #[error("the desk refused: {0}")]
    Desk(DeskFault),
    /// The store refused the command, for another reason than memory.
    #[error("the store refused: {0}")]
    Refused(Refusal),
    /// The caller or the store is out of memory.
    #[error("out of memory")]
    NoRoom,
}

impl From<NoRoom> for CallFault {
    ghost use Rattle.std.specs.Prelude.{◌≡◌};
    ghost use Rattle.desk_store.specs.declared.call_fault.CallFault.TheVariants as faults;

    ghost from_gives = { λ _ fault. fault ≡ faults.NoRoom };

    fn from(_refused: NoRoom) -> CallFault {
        CallFault::NoRoom
    }
}

impl From<DeskFault> for CallFault {
    ghost use Rattle.std.specs.Prelude.{◌≡◌};
    ghost use Rattle.desk_store.specs.declared.call_fault.CallFault.TheVariants as faults;

    ghost from_gives = { λ refused fault. fault ≡ faults.Desk refused };

    fn from(fault: DeskFault) -> CallFault {
        CallFault::Desk(fault)
    }
}

impl From<Refusal> for CallFault {
    ghost use Rattle.desk_store.specs.CallFaults.{TellsRefusal};

    ghost from_gives = { TellsRefusal };

    fn from(refusal: Refusal) -> CallFault {
        match refusal {
            Refusal::NoRoom => CallFault::NoRoom,
            other => CallFault::Refused(other),
        }
    }
}
