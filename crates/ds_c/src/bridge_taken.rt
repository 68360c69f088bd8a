//! What became of items, for C.

ghost use Rattle.std.specs.Prelude.{◌≡◌};
ghost use Rattle.ds_c.specs.Bridges.{flag, reported_reading, reported_taken};

use fleet_store::Taken;

/// What became of items that were taken.
#[repr(C)]
#[derive(Clone, Copy)]
pub struct BridgeTaken {
    /// The subscriptions that are owed a notice. Subscription SUB is bit SUB % 8 of byte SUB / 8.
    pub owed: [u8; 16],
    pub is_taken: u8,
    pub has_dropped: u8,
}

// Returns 1 if it holds, else 0.
fn flag_of(holds: bool) -> u8
    ensures { result ≡ flag holds }
{
    if holds { 1 } else { 0 }
}

impl BridgeTaken {
    /// Returns what became of items, as C has it.
    pub(crate) fn of(taken: Taken) -> BridgeTaken
        ensures { result ≡ reported_taken taken }
    {
        BridgeTaken {
            owed: taken.owed.to_le_bytes(),
            is_taken: 1,
            has_dropped: flag_of(taken.has_dropped),
        }
    }

    /// Returns what became of a reading's items; `None` if the reading was ignored.
    pub(crate) fn of_reading(taken: Option<Taken>) -> BridgeTaken
        ensures { result ≡ reported_reading taken }
    {
        match taken {
            Some(taken) => BridgeTaken::of(taken),
            None => BridgeTaken {
                owed: [0; 16],
                is_taken: 0,
                has_dropped: 0,
            },
        }
    }
}
