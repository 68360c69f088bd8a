//! Why a run of threads failed.

use crate::worker_fault::WorkerFault;
use desk::DeskFault;
use desk_store::{CallFault, ExchangeFault, RefreshFault};
use ds_machine::Refusal;
use ds_names::NoRoom;
use thiserror::Error;

/// Why a run of threads, or a part of it, failed.
#[derive(Clone, Copy, Debug, PartialEq, Eq, Error)]
pub enum LiveFault {
    /// The limit of a refresh isn't 2 to 65536 calls.
    #[error("the limit isn't 2 to 65536 calls")]
    BadLimit,
    /// The sizes of the run are out of range.
    #[error("the sizes of a run aren't those that it may have")]
    BadSizes,
    /// A desk refused a call.
    #[error("the desk refused: {0}")]
    Desk(DeskFault),
    /// A store refused a command, for another reason than memory.
    #[error("the store refused: {0}")]
    Refused(Refusal),
    /// The second store did the first `done` items of a Merge, and refused the next one.
    #[error("stopped after {done} items: {fault}")]
    Stopped {
        /// How many items were done.
        done: usize,
        /// Why the next item was refused.
        fault: Refusal,
    },
    /// A gate turned a worker away.
    #[error("a gate was shut")]
    GateShut,
    /// A thread couldn't be made.
    #[error("no thread could be made")]
    NoThread,
    /// The run or a store is out of memory.
    #[error("out of memory")]
    NoRoom,
}

impl From<NoRoom> for LiveFault {
    ghost use Rattle.std.specs.Prelude.{◌≡◌};
    ghost use Rattle.ds_live.specs.declared.live_fault.LiveFault.TheVariants as faults;

    ghost from_gives = { λ _ fault. fault ≡ faults.NoRoom };

    fn from(_refused: NoRoom) -> LiveFault {
        LiveFault::NoRoom
    }
}

impl From<DeskFault> for LiveFault {
    ghost use Rattle.std.specs.Prelude.{◌≡◌};
    ghost use Rattle.ds_live.specs.declared.live_fault.LiveFault.TheVariants as faults;

    ghost from_gives = { λ refused fault. fault ≡ faults.Desk refused };

    fn from(fault: DeskFault) -> LiveFault {
        LiveFault::Desk(fault)
    }
}

impl From<CallFault> for LiveFault {
    ghost use Rattle.std.specs.Prelude.{◌≡◌};
    ghost use Rattle.ds_live.specs.Faults.{call_fault};

    ghost from_gives = { λ call fault. fault ≡ call_fault call };

    fn from(fault: CallFault) -> LiveFault {
        match fault {
            CallFault::Desk(fault) => LiveFault::Desk(fault),
            CallFault::Refused(refusal) => LiveFault::Refused(refusal),
            CallFault::NoRoom => LiveFault::NoRoom,
        }
    }
}

impl From<RefreshFault> for LiveFault {
    ghost use Rattle.std.specs.Prelude.{◌≡◌};
    ghost use Rattle.ds_live.specs.Faults.{refresh_fault};

    ghost from_gives = { λ refresh fault. fault ≡ refresh_fault refresh };

    fn from(fault: RefreshFault) -> LiveFault {
        match fault {
            RefreshFault::BadLimit => LiveFault::BadLimit,
            RefreshFault::Call(fault) => LiveFault::from(fault),
        }
    }
}

impl From<ExchangeFault> for LiveFault {
    ghost use Rattle.std.specs.Prelude.{◌≡◌};
    ghost use Rattle.ds_live.specs.Faults.{exchange_fault};

    ghost from_gives = { λ exchange fault. fault ≡ exchange_fault exchange };

    fn from(fault: ExchangeFault) -> LiveFault {
        match fault {
            ExchangeFault::Call(fault) => LiveFault::from(fault),
            ExchangeFault::Stopped { done, fault } => LiveFault::Stopped { done, fault },
        }
    }
}

impl From<WorkerFault> for LiveFault {
    ghost use Rattle.std.specs.Prelude.{◌≡◌};
    ghost use Rattle.ds_live.specs.Faults.{worker_fault};

    ghost from_gives = { λ worker fault. fault ≡ worker_fault worker };

    fn from(fault: WorkerFault) -> LiveFault {
        match fault {
            WorkerFault::Call(fault) => LiveFault::from(fault),
            WorkerFault::Refresh(fault) => LiveFault::from(fault),
            WorkerFault::Exchange(fault) => LiveFault::from(fault),
            WorkerFault::GateShut => LiveFault::GateShut,
            WorkerFault::GivenUp(_) => LiveFault::NoThread,
        }
    }
}
