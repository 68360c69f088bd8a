//! Subscribe and Check.

ghost use Rattle.std.specs.Prelude.{◌≡◌, ◌<◌, ◌^◌, ◌&&◌, cond};
ghost use Rattle.ds_machine.specs.State.{State};
ghost use Rattle.ds_machine.specs.Machine.{Answers};
ghost use Rattle.ds_machine.specs.Watching.{subscribing, checking};
ghost use Rattle.ds_store.specs.Last.{IsLast};
ghost use Rattle.ds_content.specs.Stands.{ContentStands};
ghost use Rattle.ds_store.specs.Steps.{ContentSteps};

use crate::check::{CheckCase, refusal_of_showing, stamp_before};
use crate::store::Store;
use crate::subscribe::{SubscribeCase, take_up};
use ds_machine::{Command, Refusal, Reply};
use ds_names::NoRoom;
use ds_pattern::Query;

// Returns the subscription's bit if INITIAL is set and something is to be shown to it, else 0.
fn own_bit(sub: u32, initial: bool, some: bool) -> u128
    requires { sub < 128 }
    ensures { result ≡ cond (initial && some) (2 ^ sub) 0 }
{
    if initial && some { 1 << sub } else { 0 }
}

impl Store {
    // Answers a Subscribe: makes subscription `sub`, over another one only with `overwrite`.
    pub(super) fn subscribe(
        &mut self,
        sub: u32,
        query: &Query,
        initial: bool,
        overwrite: bool,
    ) -> Reply
        ensures step { ContentSteps self.old (λ s t. Answers s (subscribing s sub query.now initial overwrite) result t) self.new }
        ensures last { (s : State) → ContentStands self.old s → IsLast s (Command.Subscribe sub query.now initial overwrite) result }
    {
        let stamp = self.content.stamp();
        let case = SubscribeCase {
            places: self.content.limits().subs(),
            taken: self.content.stamp_of(sub).is_some(),
            stamp,
            sub,
            overwrite,
        };
        let filter = match take_up(self.alloc, case, query) {
            Ok(filter) => filter,
            Err(refusal) => return Reply::Refused(refusal),
        };
        match self.content.subscribe(sub, filter, initial) {
            Ok(some) => Reply::Subscribed {
                stamp: stamp + 1,
                owed: own_bit(sub, initial, some),
            },
            Err(NoRoom) => Reply::Refused(Refusal::NoRoom),
        }
    }

    // Answers a Check: shows the first `max` items that are to be shown to subscription `sub`.
    pub(super) fn check(&mut self, sub: u32, max: u32) -> Reply
        ensures step { ContentSteps self.old (λ s t. Answers s (checking s sub max) result t) self.new }
        ensures last { (s : State) → ContentStands self.old s → IsLast s (Command.Check sub max) result }
    {
        let case = CheckCase {
            places: self.content.limits().subs(),
            last: self.content.stamp_of(sub),
            sub,
            max,
        };
        let before = match stamp_before(case) {
            Ok(before) => before,
            Err(refusal) => return Reply::Refused(refusal),
        };
        let stamp = self.content.stamp();
        let Ok(shown) = self.content.first_unseen(sub, max) else {
            let worn = refusal_of_showing(stamp);
            return Reply::Refused(worn.unwrap_or(Refusal::NoRoom));
        };
        let count = shown.items.len();
        if count == 0 {
            return Reply::Checked {
                items: shown.items,
                before,
                after: before,
            };
        }
        if let Some(refusal) = refusal_of_showing(stamp) {
            return Reply::Refused(refusal);
        }
        self.content.show(sub, &shown);
        Reply::Checked {
            items: shown.items,
            before,
            after: stamp + 1,
        }
    }
}
