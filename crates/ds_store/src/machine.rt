//! The store as a machine that a desk of threads, or any other caller that takes turns, may hold.

ghost use Rattle.ds_store.specs.Turns.{HistoriesRun, HistoriesSettle, RepliesSettle, Turn, TurnsAreAnswered, TurnsRun};

use crate::store::Store;
use ds_machine::{Command, Reply};
use history::Machine;

// Answers one command. The call of `cursor` shows that the store stands for some state.
fn turn(store: &mut Store, command: Command) -> Reply
    ensures { Turn store.old command result store.new }
{
    let _stood = store.cursor();
    store.apply(command)
}

// The machine's states are contents, so that a history proves of each reply that it fits its command.
impl Machine for Store {
    ghost use Rattle.std.specs.Prelude.{◌≡◌};
    ghost use Rattle.ds_content.specs.Content.{ContentRecord};
    ghost use Rattle.ds_machine.specs.Owed.{owed_by};
    ghost use Rattle.ds_store.specs.Turns.{Turn};

    type Command = Command;

    type Reply = Reply;

    ghost State = { ContentRecord };

    ghost stands = { λ store content. store ≡ content };

    ghost steps = { Turn };

    ghost owes = { owed_by };

    fn step(&mut self, command: Command) -> Reply {
        turn(self, command)
    }

    fn owed(reply: &Reply) -> u128 {
        reply.owed()
    }
}

/// A law about histories of a store's turns.
///
/// From each state that the store stood for, the turns are a run of the store's machine that judges out-of-memory last.
/// The last turn is answered in some reached state. A command and its reply determine the next state, so a history
/// determines the state that it leads to. Histories are the machine's runs over their commands and replies.
pub fn stores_take_turns()
    ensures run { TurnsRun }
    ensures answered { TurnsAreAnswered }
    ensures settle { RepliesSettle }
    ensures histories_settle { HistoriesSettle }
    ensures histories_run { HistoriesRun }
{}
