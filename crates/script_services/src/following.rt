//! The answers to `follow` and `submit`.

ghost use Rattle.std.specs.Prelude.{◌≡◌, ◌++◌, OnOk, OnErr};
ghost use Rattle.std.specs.Option.{option_copied};
ghost use Rattle.ds_held.specs.Held.{held_items};
ghost use Rattle.driver_tables.specs.Run.{one_move};
ghost use Rattle.script_services.specs.Tables.{ended_by, map_items, nomap_line, own_moves, AnswersFollow, AnswersSubmit};
ghost use Rattle.rs_to_store.specs.Submitting.{FollowedAndTaken};
ghost use Rattle.script_services.specs.Kept.{BothFollowed};
ghost use Rattle.script_services.specs.Waiting.{AppendsLed, LeadsUnanswered};

use crate::moves::append_moves;
use crate::servers::Servers;
use driver_tables::{Drivers, FileTable, Move, Moves, NetTable, TableFault};
use ds_line::append_all;
use ds_names::NoRoom;
use ds_submap::SubMap;
use rs_to_store::{follow, follow_and_submit};
use script_commands::Server;
use std::alloc::Global;

impl Servers {
    /// Follows a map with both tables: the file server's and then, unless memory runs out for the first, the network
    /// server's. Appends all moves and their number; or, if memory runs out, the cause. At `Err` only the answer is
    /// missing.
    pub fn follow(
        &mut self,
        alloc: Global,
        map: Option<&SubMap>,
        output: &mut Vec<u8>,
    ) -> Result<(), NoRoom>
        ensures answered { OnOk result (AppendsLed (AnswersFollow (map_items (option_copied map.entry)))
            output.old.items output.new.items self.old self.new) }
        ensures unanswered { OnErr result (output.new.items ≡ output.old.items) }
        ensures carried { OnErr result (LeadsUnanswered (AnswersFollow (map_items (option_copied map.entry))) self.old self.new) }
    {
        let Some(map) = map else {
            return append_nomap(output);
        };
        let mut rounds = Vec::new(alloc);
        let ended = both_follow(&mut self.file, &mut self.net, map, &mut rounds);
        append_moves(output, &rounds, &ended_by(ended))
    }

    /// Follows a map with a server's table, which then takes request `id` to `unit`. Appends all moves and their
    /// number; if the request is refused, or memory runs out, the moves that were made and then the cause. At `Err` only
    /// the answer is missing.
    pub fn submit(
        &mut self,
        alloc: Global,
        server: Server,
        id: u64,
        unit: u8,
        map: Option<&SubMap>,
        output: &mut Vec<u8>,
    ) -> Result<(), NoRoom>
        ensures answered { OnOk result (AppendsLed (AnswersSubmit server id unit (map_items (option_copied map.entry)))
            output.old.items output.new.items self.old self.new) }
        ensures unanswered { OnErr result (output.new.items ≡ output.old.items) }
        ensures carried { OnErr result
            (LeadsUnanswered (AnswersSubmit server id unit (map_items (option_copied map.entry))) self.old self.new) }
    {
        let Some(map) = map else {
            return append_nomap(output);
        };
        let mut rounds = Vec::new(alloc);
        match server {
            Server::File => {
                let own = submits(&mut self.file, map, id, unit, &mut rounds);
                append_moves(output, &rounds, &own)
            }
            Server::Net => {
                let own = submits(&mut self.net, map, id, unit, &mut rounds);
                append_moves(output, &rounds, &own)
            }
        }
    }
}

// Appends the answer for a map that doesn't exist.
fn append_nomap(output: &mut Vec<u8>) -> Result<(), NoRoom>
    ensures written { OnOk result (output.new.items ≡ output.old.items ++ nomap_line) }
    ensures unchanged { OnErr result (output.new.items ≡ output.old.items) }
{
    append_all(output, &[b"refused nomap\n"])
}

// Follows a map with the file server's table and then, unless something ended that, with the network server's. Returns
// what ended it, if anything did.
fn both_follow(
    file: &mut FileTable,
    net: &mut NetTable,
    map: &SubMap,
    rounds: &mut Vec<Moves>,
) -> Option<TableFault>
    ensures { BothFollowed (held_items map.now.held) file.old file.new net.old net.new rounds.old.items rounds.new.items result }
{
    match follow(file, map, rounds) {
        None => follow(net, map, rounds),
        Some(fault) => Some(fault),
    }
}

// Returns the end of a follow's answer: no further move, or what ended it.
fn ended_by(ended: Option<TableFault>) -> Result<Option<Move>, TableFault>
    ensures { own_moves result ≡ ended_by ended }
{
    match ended {
        None => Ok(None),
        Some(fault) => Err(fault),
    }
}

// Returns the move of a request, or its refusal.
fn own_move(submitted: Result<Move, TableFault>) -> Result<Option<Move>, TableFault>
    ensures { own_moves result ≡ one_move submitted }
{
    match submitted {
        Ok(step) => Ok(Some(step)),
        Err(fault) => Err(fault),
    }
}

// Follows a map with a table, which then takes a request.
fn submits<T: Drivers>(
    table: &mut T,
    map: &SubMap,
    id: u64,
    unit: u8,
    rounds: &mut Vec<Moves>,
) -> Result<Option<Move>, TableFault>
    ensures { FollowedAndTaken (held_items map.now.held) id unit (T.kept table.old) (T.kept table.new)
        rounds.old.items rounds.new.items (own_moves result) }
{
    own_move(follow_and_submit(table, map, id, unit, rounds))
}
