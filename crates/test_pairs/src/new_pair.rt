//! RS and a store, before any call.

use rs_settings::read_any;
use rs_store::{RsCommand, RsStore};
use std::alloc::Global;

// Four services. RS answers a thousand failures in a row by a start, and pings two of them.
const SERVICES: &[u8] = b"format = 2
slots = 8
service = [
    {label = \"disk\", class = \"block\", unit = 3, period = 8, limit = 1000},
    {label = \"eth0\", class = \"network\", unit = 1, limit = 1000, forget = 64},
    {label = \"inet\", class = \"server\", period = 16, limit = 1000},
    {label = \"tty\", class = \"character\", unit = 4, limit = 1000},
]
";

/// The labels of the services.
pub(crate) const LABELS: [&[u8]; 4] = [b"disk", b"eth0", b"inet", b"tty"];

/// Returns RS, which hasn't begun, and an empty store of incarnation 1 whose journal keeps 256 items. `None` if memory runs out.
pub(crate) fn new_pair(alloc: Global) -> Option<Box<RsStore>> {
    pair_of(alloc, 1, 256)
}

/// Returns RS, which hasn't begun, and an empty store of this incarnation, whose journal keeps `ring` items. They are on the heap, since
/// each turn takes them out of the desk's slot and puts them back. `None` if memory runs out.
pub(crate) fn pair_of(alloc: Global, incarnation: u64, ring: u32) -> Option<Box<RsStore>> {
    let pair = RsStore::open(alloc, incarnation, 0, ring).ok()?;
    Box::new(alloc, pair).ok()
}

/// Returns the command with which RS begins, or `None` if memory runs out.
pub(crate) fn beginning(alloc: Global) -> Option<RsCommand> {
    let settings = read_any(alloc, SERVICES).ok()?;
    Some(RsCommand::Begin {
        settings,
        next: 1,
        first: 16,
    })
}
