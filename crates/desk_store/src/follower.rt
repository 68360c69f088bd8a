//! Followers: a subscriber's map with the subscription that keeps it up to date.

ghost use Rattle.std.specs.Prelude.{◌≡◌, None, IfOk, IfErr};
ghost use Rattle.ds_pattern.specs.Patterns.{IsPatternFault};
ghost use Rattle.desk_store.specs.Follower.{follower_of, new_follower};

use ds_pattern::{PatternFault, Query};
use ds_submap::SubMap;
use std::alloc::Global;
use std::marker::Model;

/// A map that follows a store by a subscription. A follower is new, follows, or is lost.
#[derive(Drop)]
pub struct Follower {
    pub(crate) sub: u32,
    // The query of the map and of the subscription.
    pub(crate) query: Query,
    pub(crate) map: SubMap,
    // The last stamp that the follower got for its subscription. `None` if it is new or lost.
    pub(crate) stamp: Option<u64>,
}

impl Model for Follower {
    ghost use Rattle.std.specs.Prelude.{◌≡◌, ℕ, Option};
    ghost use Rattle.std.specs.Coded.{code_by, coded_option, coded_ℕ, coded×};
    ghost use Rattle.ds_submap.specs.Map.{SubMapRecord};
    ghost use Rattle.ds_submap.specs.contracts.map.SubMap.{the_row as map_row};
    ghost use Rattle.desk_store.specs.Follower.{FollowerRecord, follower_of};

    ghost Value = { FollowerRecord };

    ghost coded = { code_by
        (ℕ × (Option ℕ × SubMapRecord))
        (coded× coded_ℕ (coded× (coded_option coded_ℕ) map_row.coded))
        (λ f. (f.sub, (f.stamp, f.map)))
        (λ p. follower_of p.0 p.1.0 p.1.1)
        (λ f i. f) };

    ghost view = { λ f. follower_of f.sub f.stamp f.map };

    ghost invariant = { λ f. f.map.query ≡ f.query };
}

impl Follower {
    /// Returns a new follower with this subscription, or the fault of the query's pattern.
    pub fn new(alloc: Global, sub: u32, query: Query) -> Result<Follower, PatternFault>
        ensures new { IfOk result (λ follower. follower ≡ new_follower sub query) }
        ensures refused { IfErr result (λ fault. IsPatternFault fault query.text) }
    {
        let map = SubMap::new(alloc, &query)?;
        Ok(Follower {
            sub,
            query,
            map,
            stamp: None,
        })
    }

    /// Returns the number of the subscription.
    pub fn sub(&self) -> u32
        ensures { result ≡ self.now.sub }
    {
        self.sub
    }

    /// Returns the map.
    pub fn map(&self) -> &SubMap
        ensures { result.now ≡ self.now.map }
    {
        &self.map
    }

    /// Makes the follower lost. The next refresh subscribes again, and then empties the map.
    pub fn lose(&mut self)
        ensures { self.new ≡ follower_of self.old.sub None self.old.map }
    {
        self.stamp = None;
    }
}
