//! The ids of entries, for C.

ghost use Rattle.std.specs.Prelude.{◌≡◌, ◌+◌, ◌*◌, ◌^◌, ◌%◌};
ghost use Rattle.ds_c.specs.Bridges.{id_of};

/// The id of an entry: `high` * 2^64 + `low`.
#[repr(C)]
#[derive(Clone, Copy)]
pub struct BridgeId {
    pub high: u64,
    pub low: u64,
}

// Returns the upper half of an id.
fn high_of(id: u128) -> u64
    ensures { result * 2 ^ 64 + id % 2 ^ 64 ≡ id }
{
    (id / 18446744073709551616) as u64
}

// Returns the lower half.
fn low_of(id: u128) -> u64
    ensures { result ≡ id % 2 ^ 64 }
{
    (id % 18446744073709551616) as u64
}

impl BridgeId {
    /// Returns an id, as C has it.
    pub(crate) fn of(id: u128) -> BridgeId
        ensures { id_of result ≡ id }
    {
        BridgeId {
            high: high_of(id),
            low: low_of(id),
        }
    }

    /// Returns the id.
    pub(crate) fn id(&self) -> u128
        ensures { result ≡ id_of self.now }
    {
        self.high as u128 * 18446744073709551616 + self.low as u128
    }
}
