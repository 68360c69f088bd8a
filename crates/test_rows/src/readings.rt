//! A service reads the keys under `eth0` while its driver publishes.

use crate::driver::{begin, endpoint, eth0, first_version};
use crate::keys::all_under;
use crate::rival::Rival;
use crate::telling::tell;
use ds_entry::{Item, Items};
use ds_reader::{Among, Asks, ReadFault, Reading, read_by_checks, read_by_pages};
use ds_store::Store;
use std::alloc::Global;
use std::io::Write;

/// How a store is read.
#[derive(Clone, Copy)]
struct Way {
    /// The subscription to check; `None` to read pages.
    sub: Option<u32>,
    /// How many items each check or page has at most.
    max: u32,
    /// How many checks or pages are allowed.
    questions: u32,
}

// Readings while the driver publishes: the row's title, how many items the store's journal keeps, and the way of
// reading.
const DRIVEN: [(&[u8], u32, Option<u32>, u32, u32); 9] = [
    (b"subscription 40, 4 checks of 2: ", RING, Some(40), 2, 4),
    (b"subscription 40, 3 checks of 2: ", RING, Some(40), 2, 3),
    (b"subscription 40, 0 checks of 2: ", RING, Some(40), 2, 0),
    (
        b"subscription 1000, 4 checks of 2: ",
        RING,
        Some(1000),
        2,
        4,
    ),
    (b"subscription 40, 4 checks of 0: ", RING, Some(40), 0, 4),
    (b"ring 256, 3 pages of 2: ", RING, None, 2, 3),
    (b"ring 256, 1 pages of 4: ", RING, None, 4, 1),
    (b"ring 256, 1 pages of 2: ", RING, None, 2, 1),
    (b"ring 1, 3 pages of 2: ", 1, None, 2, 3),
];

// How many items a store's journal keeps, unless a row says otherwise.
const RING: u32 = 256;

/// Writes the result of each reading. `None` if out of memory.
pub(crate) fn tell_rows(text: &mut Vec<u8>, alloc: Global) -> Option<()> {
    for (title, ring, sub, max, questions) in DRIVEN {
        tell(text, &[title])?;
        let way = Way {
            sub,
            max,
            questions,
        };
        tell_driven(text, alloc, ring, way)?;
    }
    tell(text, &[b"subscription 40, another checks it too: "])?;
    tell_overtaken(text, alloc, 40)?;
    tell(text, &[b"nobody else asks, one check: "])?;
    tell_alone(text, alloc, Some(0))?;
    tell(text, &[b"nobody else asks, one page: "])?;
    tell_alone(text, alloc, None)
}

// The driver publishes meanwhile, and none of its numbers is refused.
fn tell_driven(text: &mut Vec<u8>, alloc: Global, ring: u32, way: Way) -> Option<()> {
    let others = eth0(endpoint()?, first_version()?);
    let store = begun(alloc, ring)?;
    let mut among = Among { store, others };
    read(text, alloc, &mut among, way)?;
    (!among.others.is_refused).then_some(())
}

// Another service checks the same subscription, and memory lasts for all of its checks.
fn tell_overtaken(text: &mut Vec<u8>, alloc: Global, sub: u32) -> Option<()> {
    let others = Rival {
        sub,
        is_out_of_memory: false,
    };
    let store = begun(alloc, RING)?;
    let mut among = Among { store, others };
    let way = Way {
        sub: Some(sub),
        max: 2,
        questions: 4,
    };
    read(text, alloc, &mut among, way)?;
    (!among.others.is_out_of_memory).then_some(())
}

// Nobody else calls the store, and one question is enough.
fn tell_alone(text: &mut Vec<u8>, alloc: Global, sub: Option<u32>) -> Option<()> {
    let mut store = begun(alloc, RING)?;
    let way = Way {
        sub,
        max: 256,
        questions: 1,
    };
    read(text, alloc, &mut store, way)
}

// Returns a store whose journal keeps `ring` items, prepared as `begin` does.
fn begun(alloc: Global, ring: u32) -> Option<Store> {
    let mut store = Store::open(alloc, 1, 0, ring).ok()?;
    begin(&mut store)?;
    Some(store)
}

// Reads all kinds under `eth0`.
fn read<A: Asks>(text: &mut Vec<u8>, alloc: Global, asked: &mut A, way: Way) -> Option<()> {
    let reading = Reading {
        query: all_under(alloc, b"eth0.*")?,
        max: way.max,
        questions: way.questions,
    };
    match way.sub {
        Some(sub) => tell_read(text, &read_by_checks(alloc, asked, sub, &reading)),
        None => tell_read(text, &read_by_pages(alloc, asked, &reading)),
    }
}

// Writes `items` and their names, or why the reader gave up.
fn tell_read(text: &mut Vec<u8>, read: &Result<Items, ReadFault>) -> Option<()> {
    match read {
        Ok(items) => tell_names(text, items),
        Err(ReadFault::Refused(refusal)) => write!(text, "refused: {refusal}\n").ok(),
        Err(fault) => write!(text, "{fault}\n").ok(),
    }
}

// Writes the name of each change's key, and `!` with the owner of each floor, in order.
fn tell_names(text: &mut Vec<u8>, items: &Items) -> Option<()> {
    tell(text, &[b"items"])?;
    for item in items.as_slice() {
        tell_name(text, item)?;
    }
    tell(text, &[b"\n"])
}

fn tell_name(text: &mut Vec<u8>, item: &Item) -> Option<()> {
    match item {
        Item::Change(change) => tell(text, &[b" ", change.key().name.bytes()]),
        Item::Floor(floor) => tell(text, &[b" !", floor.owner.bytes()]),
    }
}
