//! Replies of a store.

ghost use Rattle.std.specs.Prelude.{◌≡◌};
ghost use Rattle.ds_machine.specs.Owed.{owed_by};

use crate::refusal::Refusal;
use ds_entry::{Items, Value};
use ds_feed::{Page, Since, Snapshot};
use ds_names::Name;

/// The reply to a command. `owed` is the mask of subscriptions to notify: those whose query has a change that took
/// effect, and all of them for a floor.
#[derive(Debug, Drop)]
pub enum Reply {
    /// The change took effect.
    Changed {
        owed: u128,
    },
    /// The change is already held.
    Known,
    /// The floor was raised and dropped `count` puts, or it was already as high.
    Swept {
        count: usize,
        owed: u128,
    },
    /// The value of a live entry.
    Found(Value),
    /// The name of an endpoint.
    Named(Name),
    /// The subscription was made with this stamp. `owed` is its own bit if something is to be shown.
    Subscribed {
        stamp: u64,
        owed: u128,
    },
    /// The items shown, floors and tombstones included, and the subscription's stamps before and after. The stamps are
    /// equal if nothing is shown.
    Checked {
        items: Items,
        before: u64,
        after: u64,
    },
    /// The items that took effect from the cursor on, and the cursor after them.
    Journaled(Since),
    /// What is held, and the current cursor.
    Snapped(Snapshot),
    /// A part of what is held, and the current cursor.
    Paged(Page),
    /// All items were done: some taken, some stale, the rest known.
    Merged {
        done: usize,
        taken: usize,
        stale: usize,
        owed: u128,
    },
    /// The first `done` items were done, and the next one was refused.
    MergeStopped {
        done: usize,
        fault: Refusal,
        owed: u128,
    },
    /// The command was refused, and nothing changed.
    Refused(Refusal),
}

impl Reply {
    /// Returns the mask of subscriptions to notify, or 0 for a reply without one.
    pub fn owed(&self) -> u128
        ensures { result ≡ owed_by self.now }
    {
        match self {
            Reply::Changed { owed }
            | Reply::Swept { owed, .. }
            | Reply::Subscribed { owed, .. }
            | Reply::Merged { owed, .. }
            | Reply::MergeStopped { owed, .. } => *owed,
            _ => 0,
        }
    }
}
