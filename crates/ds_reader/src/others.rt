//! The other users of a store.

ghost use Rattle.ds_store.specs.Steps.{ContentSteps};
ghost use Rattle.ds_reader.specs.Asked.{Goes};

use crate::asks::Asks;
use ds_machine::{Command, Reply};
use ds_store::Store;

/// The other users of a store, between two commands of a reader.
pub trait Others {
    ghost use Rattle.ds_store.specs.Steps.{ContentSteps};
    ghost use Rattle.ds_reader.specs.Asked.{Goes};

    /// Sends any commands, each one step of the store's machine.
    fn ask(&mut self, store: &mut Store)
        ensures { ContentSteps store.old Goes store.new };
}

/// A store with other users, who use it before each command of the reader.
#[derive(Drop)]
pub struct Among<O> {
    /// The store.
    pub store: Store,
    /// The other users.
    pub others: O,
}

impl<O: Others> Asks for Among<O> {
    ghost use Rattle.ds_content.specs.Stands.{ContentStands};
    ghost use Rattle.ds_reader.specs.Asked.{StepsAmongOthers};

    ghost Origin = { Unit {0} };

    ghost origin_of = { λ _. tt };

    ghost stands = { λ it s. ContentStands it.store s };

    ghost is_worn = { λ _. ⊥ };

    ghost asks_once = { λ old command new. StepsAmongOthers old.store command new.store };

    fn ask(&mut self, command: Command) -> Option<Reply> {
        self.others.ask(&mut self.store);
        Some(self.store.apply(command))
    }
}
