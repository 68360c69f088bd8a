//! The state of a bridge's decisions.

ghost use Rattle.std.specs.Prelude.{◌≡◌};
ghost use Rattle.fleet_bridge.specs.State.{new_state};

use thiserror::Error;

/// The state of a bridge's decisions.
#[derive(Clone, Copy)]
pub struct Bridge {
    /// The number of items that no server acknowledged.
    pub outbox: u64,
    /// The number of them, from the front, that the question under way adds.
    pub in_flight: u64,
    /// The id of the last entry that was read, or that a snapshot represents that was; 0: none.
    pub position: u128,
    /// Whether all held items have yet to be put into the outbox.
    pub must_resend: bool,
    /// Whether an item that was read was dropped.
    pub has_dropped: bool,
    /// The history of the server that the bridge met last.
    pub met: Option<u64>,
    /// Whether the server of the present connections was met.
    pub is_met: bool,
    /// Whether a snapshot has to be fetched before the next reading.
    pub has_gap: bool,
    /// Whether the last reading reached the log's end.
    pub is_at_end: bool,
}

/// More than 2^64 - 1 items would be in the outbox.
#[derive(Clone, Copy, Debug, PartialEq, Eq, Error)]
#[error("too many items in the outbox")]
pub struct TooMany;

impl Bridge {
    /// Returns a bridge that holds nothing and met no server.
    pub fn new() -> Bridge
        ensures { result ≡ new_state }
    {
        Bridge {
            outbox: 0,
            in_flight: 0,
            position: 0,
            must_resend: false,
            has_dropped: false,
            met: None,
            is_met: false,
            has_gap: false,
            is_at_end: false,
        }
    }
}
