//! Finding values, and names of endpoints. Both have fast ways, which lend what they find.

ghost use Rattle.std.specs.Prelude.{◌≡◌, ◌≢◌, IfSome};
ghost use Rattle.std.specs.Option.{option_copied};
ghost use Rattle.ds_entry.specs.Change.{kind_of};
ghost use Rattle.ds_machine.specs.Machine.{Step, live_at};
ghost use Rattle.ds_machine.specs.Says.{IsReplyTo};
ghost use Rattle.ds_machine.specs.State.{State};
ghost use Rattle.ds_store.specs.Last.{IsLast};
ghost use Rattle.ds_content.specs.Stands.{ContentStands, InEachState};
ghost use Rattle.ds_store.specs.Finding.{label_name};
ghost use Rattle.ds_store.specs.InPlace.{TakesNoMemory};
ghost use Rattle.ds_store.specs.Steps.{ContentSteps};

use crate::store::Store;
use ds_entry::{Body, Value};
use ds_machine::{Command, Refusal, Reply};
use ds_names::{Endpoint, Key, Name, NoRoom};

impl Store {
    /// Lends the value that a Retrieve of the key finds, or returns `None` if no entry of the key is live. Takes no memory.
    #[inline(always)]
    pub fn fast_retrieve(&self, key: &Key) -> Option<&Value>
        ensures live { InEachState self.now (λ s. option_copied result ≡ live_at s key.now) }
        ensures kind { IfSome (option_copied result) (λ value. kind_of value ≡ key.now.kind) }
    {
        let Some(change) = self.content.get(key) else {
            return None;
        };
        match change.body() {
            Body::Put(value) => Some(value),
            Body::Gone => None,
        }
    }

    /// Lends the name that a NameOf of the endpoint finds. Returns `None` for an endpoint that no live label holds, and for RS,
    /// which has no label. Takes no memory.
    #[inline(always)]
    pub fn fast_name_of(&self, endpoint: Endpoint) -> Option<&Name>
        ensures { InEachState self.now (λ s. option_copied result ≡ label_name s endpoint) }
    {
        if endpoint.is_rs() {
            return None;
        }
        self.content.label_of(endpoint)
    }

    // Answers a Retrieve of the key. Takes memory only to copy a string or memory.
    pub(super) fn retrieve(&self, key: &Key) -> Reply
        ensures step { ContentSteps self.now (λ s t. Step s (Command.Retrieve key.now) result t) self.now }
        ensures in_place { TakesNoMemory (Command.Retrieve key.now) → result ≢ Reply.Refused Refusal.NoRoom }
        ensures last { (s : State) → ContentStands self.now s → IsLast s (Command.Retrieve key.now) result }
        ensures fits { IsReplyTo (Command.Retrieve key.now) result }
    {
        let Some(value) = self.fast_retrieve(key) else {
            return Reply::Refused(Refusal::NotFound);
        };
        match value.copy(self.alloc) {
            Ok(value) => Reply::Found(value),
            Err(NoRoom) => Reply::Refused(Refusal::NoRoom),
        }
    }

    // Answers a NameOf. Takes no memory.
    pub(super) fn name_of(&self, endpoint: Endpoint) -> Reply
        ensures step { ContentSteps self.now (λ s t. Step s (Command.NameOf endpoint) result t) self.now }
        ensures in_place { result ≢ Reply.Refused Refusal.NoRoom }
        ensures last { (s : State) → ContentStands self.now s → IsLast s (Command.NameOf endpoint) result }
        ensures fits { IsReplyTo (Command.NameOf endpoint) result }
    {
        let _stood = self.cursor();
        match self.content.name_of(endpoint) {
            Some(name) => Reply::Named(name),
            None => Reply::Refused(Refusal::NotFound),
        }
    }
}
