//! The moves of the last answer.

ghost use Rattle.std.specs.Prelude.{◌≡◌, ◌≤◌, ◌-◌, ◌^◌, [], drop, length, min};
ghost use Rattle.std.specs.Option.{option_to_list};
ghost use Rattle.ds_held.specs.Held.{held_items};
ghost use Rattle.rs_to_store.specs.Submitting.{all_in};
ghost use Rattle.c_store.specs.Following.{FollowsInto, SubmitsInto};

use driver_tables::{Drivers, Move, Moves, TableFault};
use ds_submap::SubMap;
use rs_to_store::{follow, follow_and_submit};
use std::alloc::Global;
use std::marker::Model;

/// The moves of the labels that a table followed, and then the one of a request or a reply.
#[derive(Drop)]
pub struct LastMoves {
    pub(crate) rounds: Vec<Moves>,
    pub(crate) own: Option<Move>,
}

impl Model for LastMoves {
    ghost use Rattle.std.specs.Prelude.{List, ◌++◌};
    ghost use Rattle.std.specs.Option.{option_to_list};
    ghost use Rattle.driver_tables.specs.declared.moves.Move.{Move};
    ghost use Rattle.rs_to_store.specs.Submitting.{all_in};

    ghost Value = { List Move };

    ghost view = { λ m. all_in m.rounds.items ++ option_to_list m.own };
}

impl LastMoves {
    /// Returns no moves. It takes no memory.
    pub(crate) fn new(alloc: Global) -> LastMoves
        ensures { result ≡ [] }
    {
        LastMoves {
            rounds: Vec::new(alloc),
            own: None,
        }
    }

    /// Replaces the moves by a single one, or by none.
    pub(crate) fn set(&mut self, own: Option<Move>)
        ensures { self.new ≡ option_to_list own }
    {
        self.rounds.clear();
        self.own = own;
    }

    /// Follows a map with a table, and replaces the moves by those that follow. Returns what ended the follow early, if anything did.
    pub(crate) fn follow<T: Drivers>(&mut self, table: &mut T, map: &SubMap) -> Option<TableFault>
        ensures { FollowsInto (held_items map.now.held) (T.kept table.old) (T.kept table.new) result self.new }
    {
        self.rounds.clear();
        self.own = None;
        follow(table, map, &mut self.rounds)
    }

    /// Follows a map with a table, which then takes a request, and replaces the moves by those that follow and the request's own. Returns
    /// why the request wasn't accepted, if it wasn't.
    pub(crate) fn submit<T: Drivers>(
        &mut self,
        table: &mut T,
        map: &SubMap,
        id: u64,
        unit: u8,
    ) -> Option<TableFault>
        ensures { SubmitsInto (held_items map.now.held) id unit (T.kept table.old) (T.kept table.new) result self.new }
    {
        self.rounds.clear();
        self.own = None;
        match follow_and_submit(table, map, id, unit, &mut self.rounds) {
            Ok(step) => {
                self.own = Some(step);
                None
            }
            Err(fault) => Some(fault),
        }
    }

    /// Returns the number of moves, or the greatest number if there are more.
    pub(crate) fn count(&self) -> u64
        ensures { result ≡ min (length self.now) (2 ^ 64 - 1) }
    {
        let mut count = 0u64;
        for round in &self.rounds {
            count = count.saturating_add(round.len() as u64);
        }
        match self.own {
            Some(_) => count.saturating_add(1),
            None => count,
        }
    }
}
