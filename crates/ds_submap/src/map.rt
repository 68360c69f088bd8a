//! Maps of subscribers.

ghost use Rattle.std.specs.Prelude.{◌≡◌, ◌≢◌, ◌++◌, [], All, IfOk, IfErr, IfSome, OnErr};
ghost use Rattle.std.specs.Option.{option_copied};
ghost use Rattle.ds_names.specs.Endpoint.{IsEndpoint};
ghost use Rattle.ds_entry.specs.Change.{IsChange};
ghost use Rattle.ds_entry.specs.Item.{IsItem, passes};
ghost use Rattle.ds_join.specs.ItemTop.{IsTop};
ghost use Rattle.ds_held.specs.Held.{held_for, held_items};
ghost use Rattle.ds_pattern.specs.Patterns.{IsPattern, IsPatternFault};
ghost use Rattle.ds_submap.specs.Map.{empty_map, endpoint_of_label, IsMap};
ghost use Rattle.ds_submap.specs.Take.{done_items, AreCounted, IsTakeStopped, JoinsUnder};
ghost use Rattle.ds_submap.specs.Floors.{AreSwept, EachFloorStands};
ghost use Rattle.ds_entry.specs.Under.{entries_of, under};
ghost use Rattle.ds_pattern.specs.Under.{is_under};

use crate::take::{take_items, take_packed};
use ds_entry::{Body, Change, Item, Items, Value};
use ds_held::Held;
use ds_join::{Count, Stop};
use ds_names::{Endpoint, Key, Kind, Name, NoRoom};
use ds_packed::Unpacking;
use ds_pattern::{Filter, PatternFault, Query};
use std::alloc::Global;
use std::marker::Model;

/// A subscriber's map: its query, and under the query the greatest floor of each owner and the greatest version of each key.
/// It holds up to 64 floors and 4096 keys.
///
/// While a floor of an owner is held, no entry from the owner's generations up to it is held, except labels. No late item
/// brings one back until the map is cleared.
#[derive(Drop)]
pub struct SubMap {
    filter: Filter,
    held: Held,
}

impl Model for SubMap {
    ghost use Rattle.std.specs.Coded.{code_by, coded×};
    ghost use Rattle.ds_held.specs.Held.{Holding};
    ghost use Rattle.ds_held.specs.contracts.held.Held.{the_row as held_row};
    ghost use Rattle.ds_pattern.specs.declared.query.Query.{Query};
    ghost use Rattle.ds_pattern.specs.contracts.query.Query.{the_row as query_row};
    ghost use Rattle.ds_submap.specs.Map.{SubMapRecord, map_of, IsMap};

    ghost Value = { SubMapRecord };

    ghost coded = { code_by (Query × Holding) (coded× query_row.coded held_row.coded)
        (λ m. (m.query, m.held)) (λ p. map_of p.0 p.1) (λ m i. m) };

    ghost view = { λ m. map_of m.filter m.held };

    ghost invariant = { λ m. IsMap (map_of m.filter m.held) };
}

impl SubMap {
    /// Returns the empty map of a query. It is refused as the query's pattern is.
    pub fn new(alloc: Global, query: &Query) -> Result<SubMap, PatternFault>
        ensures value { IfOk result (λ map. map ≡ empty_map query.now) }
        ensures pattern { IfOk result (λ map. IsPattern map.query.text) }
        ensures refused { IfErr result (λ fault. IsPatternFault fault query.now.text) }
    {
        Ok(SubMap {
            filter: Filter::read(alloc, query)?,
            held: Held::new(alloc),
        })
    }

    /// Takes items in order: raises each floor, merges each change under its query, and skips the others.
    ///
    /// Stops at the first item that is refused, and keeps the items taken before it. Known, stale and skipped items count as
    /// done.
    ///
    /// If some item is a change of a kind that the query names, buffers that match names are allocated before the first
    /// item: without memory for them, nothing is done. A change is copied only if it is taken.
    pub fn take(&mut self, alloc: Global, items: &Items) -> Result<Count, Stop>
        ensures joined { JoinsUnder self.old.query self.old.held (done_items result items.now) self.new.held }
        ensures counted { IfOk result (AreCounted self.old.query self.old.held items.now self.new.held) }
        ensures stopped { IfErr result (IsTakeStopped self.old.query self.old.held items.now self.new.held) }
        ensures floors { EachFloorStands (held_items self.old.held ++ done_items result items.now) (held_items self.new.held) }
        ensures query { self.new.query ≡ self.old.query }
    {
        self.take_slice(alloc, items.as_slice())
    }

    /// Like `take`, for a slice of items.
    pub fn take_slice(&mut self, alloc: Global, items: &[Item]) -> Result<Count, Stop>
        ensures joined { JoinsUnder self.old.query self.old.held (done_items result items.now) self.new.held }
        ensures counted { IfOk result (AreCounted self.old.query self.old.held items.now self.new.held) }
        ensures stopped { IfErr result (IsTakeStopped self.old.query self.old.held items.now self.new.held) }
        ensures floors { EachFloorStands (held_items self.old.held ++ done_items result items.now) (held_items self.new.held) }
        ensures query { self.new.query ≡ self.old.query }
    {
        take_items(alloc, &self.filter, &mut self.held, items)
    }

    /// Like `take`, for packed items. Unpacking them allocates nothing.
    pub fn take_packed(&mut self, alloc: Global, items: Unpacking<'_>) -> Result<Count, Stop>
        ensures joined { JoinsUnder self.old.query self.old.held (done_items result items.entry) self.new.held }
        ensures counted { IfOk result (AreCounted self.old.query self.old.held items.entry self.new.held) }
        ensures stopped { IfErr result (IsTakeStopped self.old.query self.old.held items.entry self.new.held) }
        ensures floors { EachFloorStands (held_items self.old.held ++ done_items result items.entry) (held_items self.new.held) }
        ensures query { self.new.query ≡ self.old.query }
    {
        take_packed(alloc, &self.filter, &mut self.held, items)
    }

    /// Returns the change that is held for a key, or `None` if none is. It allocates nothing.
    pub fn get(&self, key: &Key) -> Option<&Change>
        ensures value { option_copied result ≡ held_for self.now.held key.now }
        ensures change { IfSome (option_copied result) IsChange }
    {
        self.held.get(key)
    }

    /// Returns the endpoint that a label has now; `None` too if the label is gone. It allocates nothing.
    pub fn label(&self, name: &Name) -> Option<Endpoint>
        ensures value { result ≡ endpoint_of_label self.now.held name.now }
        ensures valid { IfSome result IsEndpoint }
    {
        let key = Key {
            name: *name,
            kind: Kind::Label,
        };
        match self.held.live(&key)? {
            Value::Label(endpoint) => Some(*endpoint),
            Value::U32(_) | Value::Str(_) | Value::Mem(_) => None,
        }
    }

    /// Returns everything held, tombstones and floors too. It allocates nothing.
    pub fn held(&self) -> &Held
        ensures value { result.now ≡ self.now.held }
        ensures map { IsMap self.now }
    {
        &self.held
    }

    /// Removes everything, tombstones and floors too, and keeps the query. It allocates nothing.
    pub fn clear(&mut self)
        ensures { self.new ≡ empty_map self.old.query }
    {
        self.held.clear();
    }

    /// Returns the puts of what is held, in the order of their keys. No held floor voids any of them. Where no put is
    /// held, it takes no memory.
    pub fn entries(&self, alloc: Global) -> Result<Items, NoRoom>
        ensures value { IfOk result (λ items. items ≡ entries_of (held_items self.now.held)) }
        ensures room { OnErr result (entries_of (held_items self.now.held) ≢ []) }
        ensures floors { IfOk result (AreSwept (held_items self.now.held)) }
        ensures items { IfOk result (λ items. All IsItem items) }
    {
        let mut puts = Items::new(alloc);
        for index in 0..self.held.len() {
            let Some(change) = self.held.at(index) else {
                unreachable!()
            };
            if let Body::Put(_) = change.body() {
                puts.push(Item::Change(change.copy(alloc)?))?;
            }
        }
        Ok(puts)
    }
}
