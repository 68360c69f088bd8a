//! The report of a run.

ghost use Rattle.std.specs.Prelude.{◌≡◌, ◌&&◌, length, IfOk};
ghost use Rattle.ds_entry.specs.Under.{entries_of};
ghost use Rattle.ds_held.specs.Held.{held_items};
ghost use Rattle.ds_live.specs.Report.{all_have, are_exact, have_same, is_exact};

use desk::{Account, Closed, Row};
use desk_store::Follower;
use ds_entry::{Body, Item, Items};
use ds_held::Held;
use ds_names::NoRoom;
use ds_store::Store;
use std::alloc::Global;

/// The report of a run.
#[derive(Clone, Copy, Debug, PartialEq, Eq)]
pub struct LiveReport {
    /// The number of puts that the first store holds.
    pub entries: usize,
    /// Whether each subscriber's map has the same puts.
    pub maps: bool,
    /// Whether the second store has the same puts.
    pub replicas: bool,
    /// Whether, in each row of both desks' accounts, the raises are the takes, plus one if the bit is pending.
    pub account: bool,
}

/// The end of a run: the closed desks, the subscribers' followers, and the report of them.
#[derive(Drop)]
pub struct LiveRun {
    /// The report.
    pub report: LiveReport,
    /// The first desk's store and account.
    pub first: Closed<Box<Store>>,
    /// The second desk's store and account.
    pub second: Closed<Box<Store>>,
    /// The followers, in the order of the subscribers.
    pub followers: Vec<Follower>,
}

/// Returns the report of two closed desks and the subscribers' followers. Fails only if memory runs out.
pub(crate) fn report_of(
    alloc: Global,
    left: &Closed<Box<Store>>,
    right: &Closed<Box<Store>>,
    followers: &Vec<Follower>,
) -> Result<LiveReport, NoRoom>
    ensures entries { IfOk result (λ r. r.entries ≡ length (entries_of left.now.machine.value.held)) }
    ensures maps { IfOk result (λ r. r.maps ≡ all_have (entries_of left.now.machine.value.held) followers.now.items) }
    ensures replicas { IfOk result (λ r. r.replicas ≡ have_same right.now.machine.value.held left.now.machine.value.held) }
    ensures account { IfOk result (λ r. r.account ≡ (are_exact left.now.account && are_exact right.now.account)) }
{
    let entries = entries_held(alloc, left.machine.held())?;
    let maps = all_have(alloc, &entries, followers)?;
    let replica = entries_held(alloc, right.machine.held())?;
    let account = are_exact(&left.account) && are_exact(&right.account);
    let count = entries.len();
    let replicas = replica == entries;
    Ok(LiveReport {
        entries: count,
        maps,
        replicas,
        account,
    })
}

// Returns whether each follower's map has these entries.
fn all_have(alloc: Global, entries: &Items, followers: &Vec<Follower>) -> Result<bool, NoRoom>
    ensures { IfOk result (λ r. r ≡ all_have entries.now followers.now.items) }
{
    for place in 0..followers.len() {
        let follower = &followers[place];
        let mapped = follower.map().entries(alloc)?;
        let same = mapped == *entries;
        if !same {
            return Ok(false);
        }
    }
    Ok(true)
}

// Returns the puts that a store holds, in the order of their keys.
fn entries_held(alloc: Global, held: &Held) -> Result<Items, NoRoom>
    ensures { IfOk result (λ items. items ≡ entries_of (held_items held.now)) }
{
    let mut puts = Items::new(alloc);
    for index in 0..held.len() {
        let Some(change) = held.at(index) else {
            unreachable!()
        };
        if let Body::Put(_) = change.body() {
            puts.push(Item::Change(change.copy(alloc)?))?;
        }
    }
    Ok(puts)
}

// Returns whether the raises of each row of an account are the takes, plus one if the bit is pending.
fn are_exact(account: &Account) -> bool
    ensures { result ≡ are_exact account.now }
{
    for index in 0..account.len() {
        let Some(row) = account.get(index) else {
            unreachable!()
        };
        let exact = is_exact(*row);
        if !exact {
            return false;
        }
    }
    true
}

// Returns whether the raises are the takes, plus one if the bit is pending.
fn is_exact(row: Row) -> bool
    ensures { result ≡ is_exact row }
{
    u128::from(row.raises) == u128::from(row.takes) + u128::from(row.pending)
}
