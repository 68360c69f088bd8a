//! The numbers of a bridge's faults.

ghost use Rattle.std.specs.Prelude.{◌≡◌};
ghost use Rattle.ds_c.specs.Bridges.{fault_number, outcome_word};

use crate::words::{AHEAD, BEHIND, DONE, IS_BUSY, NO_LINES, NO_ROOM, NOT_PENDING, STALE};
use c_bridge::BridgeFault;

// Returns the number of a fault.
fn number_of(fault: BridgeFault) -> u32
    ensures { result ≡ fault_number fault }
{
    match fault {
        BridgeFault::Busy => IS_BUSY,
        BridgeFault::NotUnderWay => NOT_PENDING,
        BridgeFault::Ungathered => BEHIND,
        BridgeFault::Ahead => AHEAD,
        BridgeFault::BadId => STALE,
        BridgeFault::BadLines => NO_LINES,
        BridgeFault::NoRoom => NO_ROOM,
    }
}

/// Returns what a call returns that ended so.
pub(crate) fn word_of<T>(outcome: &Result<T, BridgeFault>) -> u32
    ensures { result ≡ outcome_word outcome.now }
{
    match outcome {
        Ok(_) => DONE,
        Err(fault) => number_of(*fault),
    }
}
