//! RS and its store as a desk's machine.

ghost use Rattle.rs_store.specs.Laws.{HistoriesKeepLabels, PairsSettle, RsAloneIsRs, RsTurnsRun, StoreTurnsRun};

use crate::call::{RsCommand, RsReply};
use crate::pair::RsStore;
use history::Machine;

impl Machine for RsStore {
    ghost use Rattle.std.specs.Prelude.{◌≡◌};
    ghost use Rattle.rs_store.specs.Owed.{owed_in};
    ghost use Rattle.rs_store.specs.Pair.{PairRecord};
    ghost use Rattle.rs_store.specs.Turns.{RsTurn};

    type Command = RsCommand;

    type Reply = RsReply;

    ghost State = { PairRecord };

    ghost stands = { λ pair state. pair ≡ state };

    ghost steps = { RsTurn };

    ghost owes = { owed_in };

    fn step(&mut self, command: RsCommand) -> RsReply {
        self.answer(command)
    }

    fn owed(reply: &RsReply) -> u128 {
        reply.owed()
    }
}

/// The laws of histories of RS and its store.
///
/// The store's part of a history, which is the clients' commands and those of RS's actions in one order, is a history
/// of the store. RS's part is a run of RS over exactly the events of the history, in order, each at its tick and with
/// its actions or its fault. No two label changes that RS offers contradict each other. Once RS has begun, the commands
/// with RS as their caller are exactly those of its actions. The replies settle the state after a history.
pub fn pairs_take_turns()
    ensures store { StoreTurnsRun }
    ensures services { RsTurnsRun }
    ensures labels { HistoriesKeepLabels }
    ensures alone { RsAloneIsRs }
    ensures settle { PairsSettle }
{}
