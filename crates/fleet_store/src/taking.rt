//! Items that were read, and the store that takes them.

ghost use Rattle.std.specs.Prelude.{◌≡◌, ◌∷◌, []};
ghost use Rattle.history.specs.History.{Path};
ghost use Rattle.ds_machine.specs.declared.command.Command.TheVariants.{Merge as Merges};
ghost use Rattle.ds_store.specs.Turns.{Turn};
ghost use Rattle.fleet_store.specs.Taking.{IsDeadLetter, TakesItem, taking_begun, is_merged, taking_of};

use ds_entry::Item;
use ds_held::Held;
use ds_machine::Reply;
use ds_store::Store;
use std::alloc::Global;
use std::slice::from_ref;

/// What became of items that were taken.
#[derive(Clone, Copy)]
pub struct Taken {
    /// The subscriptions that are owed a notice: subscription k is bit k.
    pub owed: u128,
    /// Whether an item was dropped: neither the store nor the dead letters have it.
    pub has_dropped: bool,
}

// Merges an item.
fn merge(store: &mut Store, item: &Item) -> Reply
    ensures { Turn store.old (Merges (item.now ∷ [])) result store.new }
{
    let _state = store.cursor();
    store.fast_merge(from_ref(item))
}

// Returns whether the reply is that of a whole merge.
fn is_merged(reply: &Reply) -> bool
    ensures { result ≡ is_merged reply.now }
{
    matches!(reply, Reply::Merged { .. })
}

// Adds an item to the dead letters. Returns whether they refuse it.
fn leave(alloc: Global, dead: &mut Held, item: &Item) -> bool
    ensures { IsDeadLetter dead.old item.now result dead.new }
{
    let answer = match item {
        Item::Change(change) => dead.merge_copy(alloc, change),
        Item::Floor(floor) => dead.raise(*floor),
    };
    answer.is_err()
}

// Takes one item.
fn take_item(alloc: Global, store: &mut Store, dead: &mut Held, item: &Item, taken: &mut Taken)
    ensures { TakesItem (taking_of store.old dead.old taken.old) item.now (taking_of store.new dead.new taken.new) }
{
    let reply = merge(store, item);
    taken.owed |= reply.owed();
    if !is_merged(&reply) && leave(alloc, dead, item) {
        taken.has_dropped = true;
    }
}

/// Takes the items in order: the store merges each, and the dead letters take those that it refuses, whatever the cause. Items that both
/// refuse are dropped. So it never stops, and reports no lack of memory but as a dropped item.
pub fn take(alloc: Global, store: &mut Store, dead: &mut Held, items: &[Item]) -> Taken
    ensures { Path TakesItem (taking_begun store.old dead.old) items.now (taking_of store.new dead.new result) }
{
    let mut taken = Taken {
        owed: 0,
        has_dropped: false,
    };
    for item in items {
        take_item(alloc, store, dead, item, &mut taken);
    }
    taken
}
