//! The account of a closed desk: how often each bit was raised and taken.

ghost use Rattle.std.specs.Prelude.{◌≡◌, ◌≤◌, ◌<◌, ℕ, [], length, slice_get, vec_capacity, IfErr};
ghost use Rattle.std.specs.Option.{option_copied};
ghost use Rattle.desk.specs.Closing.{IsRow, Sums};

use crate::fault::DeskFault;
use std::alloc::Global;
use std::marker::Model;

/// The account of one bit of a server's pending word.
#[derive(Clone, Copy, PartialEq, Eq)]
pub struct Row {
    /// How often a post found the bit 0 and set it.
    pub raises: u64,
    /// How often a take returned the bit.
    pub takes: u64,
    /// Whether the bit is still set.
    pub pending: bool,
}

/// An account of 128 rows. The row of subscription k of server s has the index 8 s + k.
#[derive(Drop)]
pub struct Account {
    pub(crate) rows: Vec<Row>,
}

impl Model for Account {
    ghost use Rattle.std.specs.Prelude.{List};
    ghost use Rattle.desk.specs.declared.account.Row.{Row};

    ghost Value = { List Row };

    ghost view = { λ a. a.rows.items };
}

impl Account {
    /// Returns the number of rows.
    pub fn len(&self) -> usize
        ensures { result ≡ length self.now }
    {
        self.rows.len()
    }

    /// Returns the row at an index from 0, or `None` past the end.
    pub fn get(&self, index: usize) -> Option<&Row>
        ensures { option_copied result ≡ slice_get self.now index }
    {
        self.rows.get(index)
    }
}

/// The memory for the account of a desk that is still open.
#[derive(Drop)]
pub struct AccountRoom {
    pub(crate) rows: Vec<Row>,
    ghost empty: { rows.items ≡ [] },
    ghost room: { 128 ≤ vec_capacity rows },
}

impl AccountRoom {
    /// Allocates the memory. Fails only if memory runs out.
    pub fn new(alloc: Global) -> Result<AccountRoom, DeskFault>
        ensures { IfErr result (λ fault. fault ≡ DeskFault.NoRoom) }
    {
        match Vec::with_capacity(alloc, 128) {
            Ok(rows) => Ok(AccountRoom { rows }),
            Err(_) => Err(DeskFault::NoRoom),
        }
    }
}

/// Adds rows to the sums, modulo 2^64.
pub(crate) fn add_rows(sums: &mut [u64; 128], rows: &[u64; 128])
    ensures { Sums sums.old rows.now sums.new }
{
    for i in 0..128usize {
        sums[i] = sums[i].wrapping_add(rows[i]);
    }
}

/// Appends a row for each bit of each pending word.
pub(crate) fn fill_rows(
    pending: &[u64; 16],
    raises: &[u64; 128],
    takes: &[u64; 128],
    rows: &mut Vec<Row>,
)
    requires room { (rows.old.items ≡ []) × (128 ≤ vec_capacity rows.old) }
    ensures long { length rows.new.items ≡ 128 }
    ensures rows { (k : ℕ) → k < 128 → IsRow pending.now raises.now takes.now rows.new.items k }
{
    for i in 0..128usize {
        rows.push_reserved(Row {
            raises: raises[i],
            takes: takes[i],
            pending: (pending[i / 8] >> (i % 8)) & 1 == 1,
        });
    }
}
