//! Why a table refuses a call.

use ds_names::NoRoom;
use std::alloc::AllocFailed;
use thiserror::Error;

/// The causes of a refusal, in the order in which they are judged. A refused call changes nothing.
#[derive(Clone, Copy, Debug, PartialEq, Eq, Error)]
pub enum TableFault {
    /// The unit has a driver already.
    #[error("the unit is assigned")]
    Assigned,
    /// The id isn't above every accepted id.
    #[error("the id isn't above those before")]
    TwoIds,
    /// No unit of this number is assigned.
    #[error("no such device")]
    NoDevice,
    /// No request of this id is pending.
    #[error("no such request is pending")]
    NotPending,
    /// The endpoint isn't the label's, and its generation isn't above all that the label had. Or the request was last sent to another
    /// endpoint.
    #[error("an old endpoint")]
    OldEndpoint,
    /// Out of memory.
    #[error("out of memory")]
    NoRoom,
}

impl From<NoRoom> for TableFault {
    ghost use Rattle.std.specs.Prelude.{◌≡◌};
    ghost use Rattle.driver_tables.specs.declared.fault.TableFault.TheVariants.{NoRoom};

    ghost from_gives = { λ _ fault. fault ≡ NoRoom };

    fn from(_refused: NoRoom) -> TableFault {
        TableFault::NoRoom
    }
}

impl<T: Drop> From<AllocFailed<T>> for TableFault {
    ghost use Rattle.std.specs.Prelude.{◌≡◌};
    ghost use Rattle.driver_tables.specs.declared.fault.TableFault.TheVariants.{NoRoom};

    ghost from_gives = { λ _ fault. fault ≡ NoRoom };

    fn from(_refused: AllocFailed<T>) -> TableFault {
        TableFault::NoRoom
    }
}
