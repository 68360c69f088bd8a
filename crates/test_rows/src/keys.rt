//! The keys, versions and queries of the readings.

use ds_names::{Generation, Key, Kind, Kinds, Name, Version};
use ds_pattern::{PatternText, Query};
use std::alloc::Global;

/// Returns the key of a number.
pub(crate) fn number_key(text: &[u8]) -> Option<Key> {
    Some(Key {
        name: Name::read(text).ok()?,
        kind: Kind::U32,
    })
}

/// Returns a version of a generation.
pub(crate) fn version(generation: u32, seq: u32) -> Option<Version> {
    Some(Version {
        epoch: Generation::of(generation)?,
        seq,
    })
}

/// Returns the query of all kinds under a pattern. `None` if out of memory.
pub(crate) fn all_under(alloc: Global, pattern: &[u8]) -> Option<Query> {
    Some(Query {
        text: PatternText::of(alloc, pattern).ok()?,
        kinds: Kinds::of(15)?,
    })
}
