//! A server's table, and the moves of its last answer.

ghost use Rattle.std.specs.Prelude.{◌≡◌, drop};
ghost use Rattle.ds_held.specs.Held.{held_items};
ghost use Rattle.c_store.specs.Calls.{IsNewTable, TableAssigns, TableFollows, TableSubmits, TableReplies};
ghost use Rattle.c_store.specs.Giving.{GivesMoves};

use crate::answers::{told_fault, told_moves};
use crate::drivers::Tables;
use crate::giving::TableMove;
use crate::laws::{table_calls_are_runs, table_calls_reach_no_older};
use crate::moves::LastMoves;
use c_values::{Answer, endpoint};
use ds_names::Name;
use ds_submap::SubMap;
use std::alloc::Global;

/// The driver table of a server, and the moves of its last answer.
#[derive(Drop)]
pub struct ServerTable {
    pub(crate) drivers: Tables,
    pub(crate) moves: LastMoves,
}

impl ServerTable {
    /// Returns an empty table of a server: 0 a file server, 1 a network server. `None` for another number. It takes no memory.
    pub fn new(alloc: Global, server: u32) -> Option<ServerTable>
        ensures { IsNewTable server result }
    {
        table_calls_are_runs();
        let drivers = Tables::new(alloc, server)?;
        Some(ServerTable {
            drivers,
            moves: LastMoves::new(alloc),
        })
    }

    /// Assigns a unit to the driver with a label. Answers NoRequest if the server has no units of this class, or the bytes aren't a name;
    /// then Assigned; NoRoom comes last. There are no moves.
    pub fn assign(&mut self, unit: u8, class: u8, label: &[u8], answer: &mut Answer)
        ensures { TableAssigns unit class label.now self.old answer.new self.new }
    {
        self.moves.set(None);
        let Ok(label) = Name::read(label) else {
            *answer = Answer::no_request();
            return;
        };
        *answer = match self.drivers.assign(unit, class, &label) {
            None => Answer::no_request(),
            Some(Ok(())) => told_moves(&self.moves, None),
            Some(Err(fault)) => told_fault(fault),
        };
    }

    /// Follows a map, and leaves the moves that follow. Only NoRoom ends it early: what was followed stays, and its moves are left.
    pub fn follow(&mut self, map: &SubMap, answer: &mut Answer)
        ensures { TableFollows (held_items map.now.held) self.old answer.new self.new }
    {
        let stop = match &mut self.drivers {
            Tables::File(table) => self.moves.follow(table, map),
            Tables::Net(table) => self.moves.follow(table, map),
        };
        *answer = told_moves(&self.moves, stop);
    }

    /// Follows a map, and then submits a request to a unit. Leaves the moves of the follow, and after them the request's own. A request
    /// isn't accepted for the first of these that applies: memory ran out for the follow; TwoIds; NoDevice; NoRoom, for a request that
    /// is sent or held.
    pub fn submit(&mut self, map: &SubMap, id: u64, unit: u8, answer: &mut Answer)
        ensures { TableSubmits (held_items map.now.held) id unit self.old answer.new self.new }
    {
        table_calls_reach_no_older();
        let stop = match &mut self.drivers {
            Tables::File(table) => self.moves.submit(table, map, id, unit),
            Tables::Net(table) => self.moves.submit(table, map, id, unit),
        };
        *answer = told_moves(&self.moves, stop);
    }

    /// Takes the reply of the driver at an endpoint to a request, and leaves the move that answers it Done. Answers NoRequest if there is
    /// no such endpoint, then NotPending, then OldEndpoint. It takes no memory.
    pub fn reply(&mut self, generation: u32, slot: u16, id: u64, answer: &mut Answer)
        ensures { TableReplies generation slot id self.old answer.new self.new }
    {
        let Some(endpoint) = endpoint(generation, slot) else {
            self.moves.set(None);
            *answer = Answer::no_request();
            return;
        };
        match self.drivers.reply(endpoint, id) {
            Ok(step) => {
                self.moves.set(Some(step));
                *answer = told_moves(&self.moves, None);
            }
            Err(fault) => {
                self.moves.set(None);
                *answer = told_fault(fault);
            }
        }
    }

    /// Writes the moves of the last answer to a buffer, from the one at index `first` on: as many as fit. Returns how many. It takes no
    /// memory.
    pub fn give(&self, first: usize, room: &mut [TableMove]) -> usize
        ensures { GivesMoves (drop first self.now.moves) room.old result room.new }
    {
        self.moves.give(first, room)
    }
}
