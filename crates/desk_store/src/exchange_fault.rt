//! Why an exchange failed.

use crate::call_fault::CallFault;
use crate::merging::MergeFault;
use ds_machine::Refusal;
use ds_names::NoRoom;
use thiserror::Error;

/// Why an exchange between two desks failed.
#[derive(Clone, Copy, Debug, PartialEq, Eq, Error)]
pub enum ExchangeFault {
    /// A desk refused a call, the first store refused a question, or the caller is out of memory.
    #[error("{0}")]
    Call(CallFault),
    /// The second store did the first `done` items of a Merge, and refused the next one.
    #[error("stopped after {done} items: {fault}")]
    Stopped {
        /// How many items were done.
        done: usize,
        /// Why the next item was refused.
        fault: Refusal,
    },
}

impl From<NoRoom> for ExchangeFault {
    ghost use Rattle.std.specs.Prelude.{◌≡◌};
    ghost use Rattle.desk_store.specs.declared.call_fault.CallFault.TheVariants as calls;
    ghost use Rattle.desk_store.specs.declared.exchange_fault.ExchangeFault.TheVariants as faults;

    ghost from_gives = { λ _ fault. fault ≡ faults.Call calls.NoRoom };

    fn from(_refused: NoRoom) -> ExchangeFault {
        ExchangeFault::Call(CallFault::NoRoom)
    }
}

impl From<CallFault> for ExchangeFault {
    ghost use Rattle.std.specs.Prelude.{◌≡◌};
    ghost use Rattle.desk_store.specs.declared.exchange_fault.ExchangeFault.TheVariants as faults;

    ghost from_gives = { λ call fault. fault ≡ faults.Call call };

    fn from(fault: CallFault) -> ExchangeFault {
        ExchangeFault::Call(fault)
    }
}

impl From<MergeFault> for ExchangeFault {
    ghost use Rattle.std.specs.Prelude.{◌≡◌};
    ghost use Rattle.desk_store.specs.ExchangeFaults.{merge_fault};

    ghost from_gives = { λ merge fault. fault ≡ merge_fault merge };

    fn from(fault: MergeFault) -> ExchangeFault {
        match fault {
            MergeFault::Desk(fault) => ExchangeFault::Call(CallFault::Desk(fault)),
            MergeFault::Stopped { done, fault } => ExchangeFault::Stopped { done, fault },
        }
    }
}
