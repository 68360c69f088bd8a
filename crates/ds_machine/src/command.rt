//! Commands to a store.

use ds_entry::{Items, Value};
use ds_feed::Cursor;
use ds_names::{Endpoint, Generation, Key, Name, Version};
use ds_pattern::Query;

/// The keys that a reader asks about. A floor is under every scope.
#[derive(Drop)]
pub enum Scope {
    /// Every key.
    All,
    /// The keys under a query.
    Under(Query),
}

/// A command to a store.
#[derive(Drop)]
pub enum Command {
    /// Puts a value under a key, owned by the caller. A live entry is overwritten only with `overwrite`.
    Publish {
        caller: Endpoint,
        key: Key,
        version: Version,
        value: Value,
        overwrite: bool,
    },
    /// Ends a live entry of the caller with a tombstone.
    Delete {
        caller: Endpoint,
        key: Key,
        version: Version,
    },
    /// Raises an owner's floor to a generation: its changes of epochs up to that one are dropped for good, labels
    /// excepted.
    Sweep {
        caller: Endpoint,
        owner: Name,
        generation: Generation,
    },
    /// Reads the value of a live entry.
    Retrieve {
        key: Key,
    },
    /// Reads the least name whose live label holds the endpoint.
    NameOf {
        endpoint: Endpoint,
    },
    /// Makes subscription number `sub`, over an existing one only with `overwrite`. With `initial`, all that is held
    /// under the query is to be shown; without it, only later changes.
    Subscribe {
        sub: u32,
        query: Query,
        initial: bool,
        overwrite: bool,
    },
    /// Reads the first `max` items (1 to 256) that are to be shown to the subscription: floors first, then changes in
    /// key order.
    Check {
        sub: u32,
        max: u32,
    },
    /// Reads at most `max` items (1 to 256) that took effect under the scope from the cursor on.
    Since {
        scope: Scope,
        cursor: Cursor,
        max: u32,
    },
    /// Reads everything held under the scope.
    Snapshot {
        scope: Scope,
    },
    /// Reads the first `max` changes (1 to 256) held under the scope after the key. Without a key, reads all floors
    /// too.
    Page {
        scope: Scope,
        after: Option<Key>,
        max: u32,
    },
    /// Merges at most 256 items of another holder. It has no caller.
    Merge {
        items: Items,
    },
}
