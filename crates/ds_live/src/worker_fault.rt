//! Why a worker ended early.

use crate::given_up::Told;
use desk::DeskFault;
use desk_store::{CallFault, ExchangeFault, RefreshFault};
use thiserror::Error;

/// Why a worker ended early.
#[derive(Clone, Copy, Debug, PartialEq, Eq, Error)]
pub enum WorkerFault {
    /// A call of a publisher failed, or a subscriber's notices couldn't be taken.
    #[error("{0}")]
    Call(CallFault),
    /// A subscriber's refresh failed.
    #[error("{0}")]
    Refresh(RefreshFault),
    /// An exchange failed.
    #[error("{0}")]
    Exchange(ExchangeFault),
    /// The gate turned the worker away.
    #[error("a gate was shut")]
    GateShut,
    /// The run was given up.
    #[error("the run was given up")]
    GivenUp(Told),
}

impl From<CallFault> for WorkerFault {
    ghost use Rattle.std.specs.Prelude.{◌≡◌};
    ghost use Rattle.ds_live.specs.declared.worker_fault.WorkerFault.TheVariants as faults;

    ghost from_gives = { λ call fault. fault ≡ faults.Call call };

    fn from(fault: CallFault) -> WorkerFault {
        WorkerFault::Call(fault)
    }
}

impl From<DeskFault> for WorkerFault {
    ghost use Rattle.std.specs.Prelude.{◌≡◌};
    ghost use Rattle.desk_store.specs.declared.call_fault.CallFault.TheVariants as calls;
    ghost use Rattle.ds_live.specs.declared.worker_fault.WorkerFault.TheVariants as faults;

    ghost from_gives = { λ desk fault. fault ≡ faults.Call (calls.Desk desk) };

    fn from(fault: DeskFault) -> WorkerFault {
        WorkerFault::Call(CallFault::Desk(fault))
    }
}

impl From<RefreshFault> for WorkerFault {
    ghost use Rattle.std.specs.Prelude.{◌≡◌};
    ghost use Rattle.ds_live.specs.declared.worker_fault.WorkerFault.TheVariants as faults;

    ghost from_gives = { λ refresh fault. fault ≡ faults.Refresh refresh };

    fn from(fault: RefreshFault) -> WorkerFault {
        WorkerFault::Refresh(fault)
    }
}

impl From<ExchangeFault> for WorkerFault {
    ghost use Rattle.std.specs.Prelude.{◌≡◌};
    ghost use Rattle.ds_live.specs.declared.worker_fault.WorkerFault.TheVariants as faults;

    ghost from_gives = { λ exchange fault. fault ≡ faults.Exchange exchange };

    fn from(fault: ExchangeFault) -> WorkerFault {
        WorkerFault::Exchange(fault)
    }
}
