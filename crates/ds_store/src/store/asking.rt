//! Publish and Delete.

ghost use Rattle.std.specs.Prelude.{◌≡◌, None, IfNone};
ghost use Rattle.ds_entry.specs.Change.{IsChange};
ghost use Rattle.ds_held.specs.Kept.{IsPlace};
ghost use Rattle.ds_machine.specs.Parts.{changes_in};
ghost use Rattle.ds_machine.specs.Asking.{cause_against, change_asked, name_of};
ghost use Rattle.ds_machine.specs.Machine.{Answers, Step, asking};
ghost use Rattle.ds_machine.specs.Says.{IsReplyTo};
ghost use Rattle.ds_machine.specs.State.{State};
ghost use Rattle.ds_store.specs.Asked.{request_of};
ghost use Rattle.ds_store.specs.Last.{IsLast, MayLackAsked};
ghost use Rattle.ds_store.specs.Standing.{machine_standing};
ghost use Rattle.ds_content.specs.Stands.{ContentStands, InEachState};
ghost use Rattle.ds_content.specs.Standing.{standing_in};
ghost use Rattle.ds_machine.specs.Standing.{IsFree};
ghost use Rattle.ds_store.specs.Asking.{asked_here};
ghost use Rattle.ds_store.specs.Steps.{ContentSteps};

use crate::answer::answer_to;
use crate::asked::{Asked, cause_of_asked, change_asked, is_void_under, published};
use crate::standing::Standing;
use crate::store::Store;
use ds_content::Content;
use ds_entry::{Body, Value};
use ds_machine::{Cause, Command, Refusal, Reply};
use ds_names::{Endpoint, Key, Name, NoRoom, Version};

impl Store {
    // Returns what a change asked for by a caller of this name meets. `place` is its key's.
    fn standing_before(
        &self,
        place: Result<usize, usize>,
        asked: &Asked,
        caller: &Option<Name>,
    ) -> Standing<'_>
        requires { IsPlace (changes_in self.now.held) asked.now.key place }
        ensures { (body : Body) → machine_standing result ≡ standing_in self.now (change_asked caller.now (request_of asked.now) body) }
    {
        let content: &Content = &self.content;
        let _held = content.held();
        let owner = match caller {
            Some(name) => *name,
            None => Name::rs(),
        };
        let void = is_void_under(content.floor(&owner), asked);
        self.standing(place, &asked.key, void)
    }

    // Returns the first cause against what a caller of this name asks for. `place` is its key's.
    fn cause_against(
        &self,
        place: Result<usize, usize>,
        caller: &Option<Name>,
        asked: &Asked,
        body: &Body,
    ) -> Option<Cause>
        requires place { IsPlace (changes_in self.now.held) asked.now.key place }
        requires named { caller.now ≡ name_of self.now.held asked.now.caller }
        ensures first { (s : State) → ContentStands self.now s → result ≡ cause_against s (request_of asked.now) body.now }
        ensures free { let c = asked_here self.now (request_of asked.now) body.now in IfNone result (IsFree (standing_in self.now c) c) }
        ensures made { IfNone result (IsChange (asked_here self.now (request_of asked.now) body.now)) }
    {
        let standing = self.standing_before(place, asked, caller);
        cause_of_asked(&standing, *caller, asked, body)
    }

    // Answers a Publish or a Delete: the change takes effect unless a cause applies to it.
    #[inline(always)]
    pub(super) fn ask(&mut self, asked: &Asked, body: Body) -> Reply
        ensures step { ContentSteps self.old (λ s t. Answers s (asking s (request_of asked.now) body) result t) self.new }
        ensures last { result ≡ Reply.Refused Refusal.NoRoom → InEachState self.old (λ s. MayLackAsked s (request_of asked.now) body) }
    {
        let place = self.content.place(&asked.key);
        let caller = self.content.name_of(asked.caller);
        if let Some(cause) = self.cause_against(place, &caller, asked, &body) {
            return answer_to(cause);
        }
        let Ok(owed) = self.content.owed_at(place, &asked.key) else {
            return Reply::Refused(Refusal::NoRoom);
        };
        let change = change_asked(asked, body, caller);
        match self.content.accept_at(place, &change, owed) {
            Ok(()) => Reply::Changed {
                owed: owed.number(),
            },
            Err(NoRoom) => Reply::Refused(Refusal::NoRoom),
        }
    }

    // Answers a Publish.
    #[inline(always)]
    pub(super) fn publish(
        &mut self,
        caller: Endpoint,
        key: Key,
        version: Version,
        value: Value,
        overwrite: bool,
    ) -> Reply
        ensures step { ContentSteps self.old (λ s t. Step s (Command.Publish caller key version value overwrite) result t) self.new }
        ensures last { (s : State) → ContentStands self.old s → IsLast s (Command.Publish caller key version value overwrite) result }
        ensures fits { IsReplyTo (Command.Publish caller key version value overwrite) result }
    {
        let _stood = self.cursor();
        self.ask(
            &published(caller, key, version, overwrite),
            Body::Put(value),
        )
    }
}
