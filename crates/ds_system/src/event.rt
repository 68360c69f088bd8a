//! The events of a system.

use ds_entry::Value;
use ds_names::{Endpoint, Key, Name};
use ds_replica::{Event, Side};

/// One of the two servers with a driver table. Not part of MINIX 3.
#[derive(Clone, Copy, PartialEq, Eq)]
pub enum Table {
    /// The file server, which follows map 0.
    File,
    /// The network server, which follows map 1.
    Net,
}

/// An event of a system. Changes, maps and messages have numbers, from 0 in the order in which they were made. Of this
/// project.
#[derive(Drop)]
pub enum SystemEvent {
    /// An event for RS. Its label changes and sweeps go to the store of the side.
    Service {
        event: rs_core::Event,
        tick: u64,
        side: Side,
    },
    /// A service publishes a value, over what is there; its instance draws the version's number.
    Put {
        label: Name,
        key: Key,
        value: Value,
        side: Side,
    },
    /// A service deletes an entry of its own; its instance draws the version's number.
    Remove {
        label: Name,
        key: Key,
        side: Side,
    },
    /// A change that RS or a service made is repeated, as a Merge.
    Again {
        change: usize,
        side: Side,
    },
    /// An event of the world, except an Ask that brings something in.
    World(Event),
    /// Both servers follow their maps, the file server first.
    Follow,
    /// A server follows its map, and then takes a request.
    Submit {
        table: Table,
        id: u64,
        unit: u8,
    },
    /// A driver replies to a request.
    Answered {
        table: Table,
        endpoint: Endpoint,
        id: u64,
    },
}
