//! The journal of a store.

ghost use Rattle.std.specs.Prelude.{◌≡◌, IfOk, IfErr, OnOk};
ghost use Rattle.ds_content.specs.Stands.{ContentStands, InEachState};
ghost use Rattle.fleet_store.specs.Journal.{IsInJournal, IsNewsRefusal, news_after};

use ds_feed::{Cursor, Since};
use ds_machine::{Command, Refusal, Reply, Scope};
use ds_store::Store;

/// The most items that `news_since` returns.
const MOST: u32 = 256;

/// Returns the items that took effect in this run of the store from a position on, at most 256 of them, in order, and the cursor after
/// them.
///
/// Refuses a position after the journal's as Ahead, then one from which on the journal lacks items as Behind, and last as NoRoom. The
/// store is unchanged.
pub fn news_since(store: &mut Store, position: u64) -> Result<Since, Refusal>
    ensures given { IfOk result (λ since. InEachState store.old (λ s. since ≡ news_after s.feed position)) }
    ensures there { OnOk result (InEachState store.old (λ s. IsInJournal s.feed position)) }
    ensures refused { IfErr result (λ refusal. InEachState store.old (λ s. IsNewsRefusal s.feed position refusal)) }
    ensures same { InEachState store.old (ContentStands store.new) }
{
    let cursor = Cursor {
        incarnation: store.incarnation(),
        position,
    };
    match store.apply(Command::Since {
        scope: Scope::All,
        cursor,
        max: MOST,
    }) {
        Reply::Journaled(since) => Ok(since),
        Reply::Refused(refusal) => Err(refusal),
        _ => unreachable!(),
    }
}
