//! Deliveries of a message's items to a holder.

ghost use Rattle.std.specs.Prelude.{◌≡◌, ◌≤◌, length, IfErr, IfOk};
ghost use Rattle.ds_names.specs.Limits.{most_items};
ghost use Rattle.ds_submap.specs.Map.{IsMap};
ghost use Rattle.ds_submap.specs.Take.{done_items, AreCounted, IsTakeStopped, JoinsUnder};
ghost use Rattle.ds_replica.specs.Lent.{items_lent};
ghost use Rattle.ds_replica.specs.declared.event.Event.TheVariants.{Deliver};
ghost use Rattle.ds_replica.specs.declared.event.Holder.TheVariants.{Store as OfStore, Map as OfMap};
ghost use Rattle.ds_replica.specs.Delivery.{MapTakes};
ghost use Rattle.ds_world.specs.World.{map_state};
ghost use Rattle.ds_world.specs.Tally.{outcome_of, tally_of, CountsOf};
ghost use Rattle.ds_world.specs.Told.{IsMapTold, IsTold};
ghost use Rattle.ds_world.specs.Steps.{ItemsAreTaken};
ghost use Rattle.ds_world.specs.Run.{EventLeads};

use crate::parts::map_proof;
use crate::replies::items_at;
use crate::tally::Tally;
use crate::world::World;
use ds_entry::Item;
use ds_join::{Count, Stop};
use ds_machine::{Refusal, Reply};
use ds_names::limits::MOST_ITEMS;
use ds_packed::Unpacking;
use ds_replica::{EventFault, Holder, Lent, Outcome, Side};
use ds_store::Store;
use ds_submap::SubMap;
use std::alloc::Global;
use std::slice;

// Merges a group of items into a store.
fn merge_group(store: &mut Store, group: &[Item]) -> Tally
    requires { length group.now ≤ most_items }
    ensures takes { ItemsAreTaken store.old group.now (tally_of result) store.new }
    ensures counted { CountsOf (length group.now) (tally_of result) }
{
    let _stood = store.cursor();
    match store.fast_merge(group) {
        Reply::Merged {
            done,
            taken,
            stale,
            owed,
        } => Tally {
            count: Count { done, taken, stale },
            owed,
            stop: None,
        },
        Reply::MergeStopped { done, fault, owed } => Tally::ended(done, owed, Some(fault)),
        Reply::Refused(fault) => Tally::ended(0, 0, Some(fault)),
        _ => unreachable!(),
    }
}

// Merges the items into a store, at most 256 at once. Stops after a Merge that stopped.
fn merge_slice(store: &mut Store, items: &[Item]) -> Tally
    ensures { ItemsAreTaken store.old items.now (tally_of result) store.new }
{
    let mut tally = Tally::ended(0, 0, None);
    let mut left = items;
    while tally.stop.is_none() && !left.is_empty() {
        let (group, others) = left.split_at(MOST_ITEMS.min(left.len()));
        tally.add(&merge_group(store, group));
        left = others;
    }
    tally
}

// Merges packed items into a store, one at a time. Stops after a Merge that stopped.
fn merge_packed(store: &mut Store, mut items: Unpacking<'_>) -> Tally
    ensures { ItemsAreTaken store.old items.entry (tally_of result) store.new }
{
    let mut tally = Tally::ended(0, 0, None);
    let _most = items.len();
    while let Some(item) = items.next() {
        tally.add(&merge_group(store, slice::from_ref(&item)));
        drop(item);
        if tally.stop.is_some() {
            break;
        }
    }
    tally
}

// Merges the items of a message into a store.
fn merge_all(store: &mut Store, items: Lent<'_>) -> Tally
    ensures { ItemsAreTaken store.old (items_lent items.entry) (tally_of result) store.new }
{
    match items {
        Lent::Whole(items) => merge_slice(store, items),
        Lent::Packed(items) => merge_packed(store, items),
    }
}

// Lets a map take the items.
fn take(alloc: Global, map: &mut SubMap, items: Lent<'_>) -> Result<Count, Stop>
    ensures joined { JoinsUnder map.old.query map.old.held (done_items result (items_lent items.entry)) map.new.held }
    ensures counted { IfOk result (AreCounted map.old.query map.old.held (items_lent items.entry) map.new.held) }
    ensures stopped { IfErr result (IsTakeStopped map.old.query map.old.held (items_lent items.entry) map.new.held) }
    ensures query { map.new.query ≡ map.old.query }
{
    match items {
        Lent::Whole(items) => map.take_slice(alloc, items),
        Lent::Packed(items) => map.take_packed(alloc, items),
    }
}

fn take_all(alloc: Global, map: &mut SubMap, items: Lent<'_>) -> Tally
    ensures takes { MapTakes (map_state map.old) (items_lent items.entry) (tally_of result) (map_state map.new) }
    ensures told { IsMapTold map.old.query map.old.held (items_lent items.entry) (outcome_of result) map.new.held }
    ensures map { IsMap map.new }
{
    let taken = take(alloc, map, items);
    map_proof(map);
    match taken {
        Ok(count) => Tally {
            count,
            owed: 0,
            stop: None,
        },
        Err(stop) => Tally::ended(stop.done, 0, Some(Refusal::of_join(stop.fault))),
    }
}

impl World {
    // Delivers the first `count` items of a message, or all, to a holder.
    pub(super) fn deliver(
        &mut self,
        message: usize,
        holder: Holder,
        count: Option<usize>,
    ) -> Outcome
        ensures leads { EventLeads (Deliver message holder count) result self.old self.new }
        ensures told { IsTold (Deliver message holder count) result self.old self.new }
    {
        match holder {
            Holder::Store(side) => self.deliver_to_store(message, side, count),
            Holder::Map(map) => self.deliver_to_map(message, map, count),
        }
    }

    // Delivers them to a store.
    fn deliver_to_store(&mut self, message: usize, side: Side, count: Option<usize>) -> Outcome
        ensures leads { EventLeads (Deliver message (OfStore side) count) result self.old self.new }
        ensures told { IsTold (Deliver message (OfStore side) count) result self.old self.new }
    {
        let Some(items) = items_at(&self.messages, message) else {
            return Outcome::Refused(EventFault::NoMessage);
        };
        let Some(first) = items.first(count) else {
            return Outcome::Refused(EventFault::TooMany);
        };
        let tally = match side {
            Side::A => merge_all(&mut self.a, first),
            Side::B => merge_all(&mut self.b, first),
        };
        tally.outcome()
    }

    // Delivers them to a map.
    fn deliver_to_map(&mut self, message: usize, map: usize, count: Option<usize>) -> Outcome
        ensures leads { EventLeads (Deliver message (OfMap map) count) result self.old self.new }
        ensures told { IsTold (Deliver message (OfMap map) count) result self.old self.new }
    {
        let Some(items) = items_at(&self.messages, message) else {
            return Outcome::Refused(EventFault::NoMessage);
        };
        if map >= self.maps.len() {
            return Outcome::Refused(EventFault::NoMap);
        }
        let Some(first) = items.first(count) else {
            return Outcome::Refused(EventFault::TooMany);
        };
        take_all(self.alloc, &mut self.maps[map], first).outcome()
    }
}
