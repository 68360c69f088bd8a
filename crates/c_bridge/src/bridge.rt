//! A bridge, its outbox and its dead letters.

ghost use Rattle.std.specs.Prelude.{◌≡◌, ◌≢◌, [], IfOk, OnErr};
ghost use Rattle.c_bridge.specs.State.{bridge_opened, is_asking};
ghost use Rattle.fleet_store.specs.Taking.{held_with_dead};

use ds_entry::Items;
use ds_held::Held;
use ds_names::NoRoom;
use ds_store::Store;
use fleet_bridge::{Bridge, Question};
use std::alloc::Global;

/// The reading under way on the connection that reads.
#[derive(Clone, Copy)]
pub struct UnderRead {
    /// The history that the bridge had met when it asked.
    pub history: Option<u64>,
    /// The id of the entry after which the reading begins.
    pub from: u128,
    /// The id of the last entry that was handed over; `from` before the first.
    pub last: u128,
}

/// A bridge beside a store: its decisions, and the items that they are about.
#[derive(Drop)]
pub struct StoreBridge {
    /// The decisions, which count the outbox.
    pub decisions: Bridge,
    /// The question under way on the connection that asks; `Nothing` if none is.
    pub question: Question,
    /// The items that no server acknowledged, in order.
    pub outbox: Items,
    /// What the compaction under way takes in; empty without one.
    pub snapshot: Items,
    /// Items that the store refused.
    pub dead: Held,
    /// The position up to which the store's journal was gathered.
    pub seen: u64,
    /// The reading under way.
    pub reading: Option<UnderRead>,
    /// The items of its entries.
    pub entries: Items,
}

// Returns whether the question is under way: it isn't `Nothing`.
pub(crate) fn is_asking(question: Question) -> bool
    ensures { result ≡ is_asking question }
{
    !matches!(question, Question::Nothing)
}

// Returns copies of all that is held, by the store and as dead letters.
pub(crate) fn held_with_dead(alloc: Global, store: &Store, dead: &Held) -> Result<Items, NoRoom>
    ensures { IfOk result (λ items. items ≡ held_with_dead store.now dead.now) }
{
    let mut items = store.held().all(alloc)?;
    let dead = dead.all(alloc)?;
    items.append_copies(alloc, &dead)?;
    Ok(items)
}

impl StoreBridge {
    /// Returns a bridge that met no server. All that the store holds is in its outbox. It fails only if memory runs out for that.
    pub fn open(alloc: Global, store: &Store) -> Result<StoreBridge, NoRoom>
        ensures opened { IfOk result (λ bridge. bridge ≡ bridge_opened store.now) }
        ensures room { OnErr result (store.now.held ≢ []) }
    {
        let outbox = store.held().all(alloc)?;
        let mut decisions = Bridge::new();
        decisions.fold(outbox.len() as u64);
        Ok(StoreBridge {
            decisions,
            question: Question::Nothing,
            outbox,
            snapshot: Items::new(alloc),
            dead: Held::new(alloc),
            seen: store.cursor().position,
            reading: None,
            entries: Items::new(alloc),
        })
    }
}
