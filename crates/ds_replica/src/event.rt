//! The events of a world.

ghost use Rattle.std.specs.Prelude.{◌≡◌, IfOk, OnErr};
ghost use Rattle.ds_replica.specs.Copying.{EventCopyTakesMemory};

use ds_machine::Command;
use ds_names::NoRoom;
use ds_pattern::Query;
use std::alloc::Global;

/// One of the two stores.
#[derive(Clone, Copy, PartialEq, Eq)]
pub enum Side {
    A,
    B,
}

/// A holder of items: a store, or the map of this number, counted from 0.
#[derive(Clone, Copy, PartialEq, Eq)]
pub enum Holder {
    Store(Side),
    Map(usize),
}

/// An event of a world. Maps and messages are numbered from 0 in the order of their making. Not part of MINIX 3.
#[derive(Drop)]
pub enum Event {
    /// Sends a command to a store. A reply with items (to a Check, Since, Snapshot or Page) is kept as the next
    /// message.
    Ask {
        side: Side,
        command: Command,
    },
    /// Makes a subscriber's map. A world has at most 64.
    NewMap {
        query: Query,
    },
    /// Delivers the first `count` items of a message, or all, to a holder. It may happen at any time, any number of
    /// times.
    Deliver {
        message: usize,
        holder: Holder,
        count: Option<usize>,
    },
    /// Empties a map.
    ClearMap {
        map: usize,
    },
    /// Opens a store again, empty, as another incarnation.
    RestartStore {
        side: Side,
        incarnation: u64,
    },
}

impl Event {
    /// Returns a copy. Fails only if memory runs out for a command's or a query's copy.
    pub fn copy(&self, alloc: Global) -> Result<Event, NoRoom>
        ensures same { IfOk result (λ copy. copy ≡ self.now) }
        ensures room { OnErr result (EventCopyTakesMemory self.now) }
    {
        match self {
            Event::Ask { side, command } => Ok(Event::Ask {
                side: *side,
                command: command.copy(alloc)?,
            }),
            Event::NewMap { query } => Ok(Event::NewMap {
                query: query.copy(alloc)?,
            }),
            Event::Deliver {
                message,
                holder,
                count,
            } => Ok(Event::Deliver {
                message: *message,
                holder: *holder,
                count: *count,
            }),
            Event::ClearMap { map } => Ok(Event::ClearMap { map: *map }),
            Event::RestartStore { side, incarnation } => Ok(Event::RestartStore {
                side: *side,
                incarnation: *incarnation,
            }),
        }
    }
}
