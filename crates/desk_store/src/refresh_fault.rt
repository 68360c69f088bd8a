//! Why a refresh failed.

use crate::call_fault::CallFault;
use thiserror::Error;

/// Why a refresh failed.
#[derive(Clone, Copy, Debug, PartialEq, Eq, Error)]
pub enum RefreshFault {
    /// The limit isn't 2 to 65536 calls.
    #[error("the limit isn't 2 to 65536 calls")]
    BadLimit,
    /// A call to the desk's store failed, or the caller is out of memory.
    #[error("{0}")]
    Call(CallFault),
}

impl From<CallFault> for RefreshFault {
    ghost use Rattle.std.specs.Prelude.{◌≡◌};
    ghost use Rattle.desk_store.specs.declared.refresh_fault.RefreshFault.TheVariants as faults;

    ghost from_gives = { λ call fault. fault ≡ faults.Call call };

    fn from(fault: CallFault) -> RefreshFault {
        RefreshFault::Call(fault)
    }
}
