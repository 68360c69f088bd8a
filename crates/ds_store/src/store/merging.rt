//! Merges of another holder's items.

ghost use Rattle.std.specs.Prelude.{◌≡◌, Err, IfNone};
ghost use Rattle.ds_entry.specs.declared.item.Item.TheVariants.{Change as Changed, Floor as Floored};
ghost use Rattle.ds_held.specs.Kept.{IsFloorPlace, IsPlace};
ghost use Rattle.ds_machine.specs.Parts.{changes_in, floors_in};
ghost use Rattle.ds_machine.specs.Standing.{cause_of, IsFree, IsFloorFree};
ghost use Rattle.ds_machine.specs.State.{State};
ghost use Rattle.ds_machine.specs.Machine.{Step};
ghost use Rattle.ds_machine.specs.Says.{IsReplyTo};
ghost use Rattle.ds_store.specs.Last.{IsLast, MayLackItem};
ghost use Rattle.ds_store.specs.Standing.{machine_standing};
ghost use Rattle.ds_content.specs.Stands.{ContentStands, InEachState};
ghost use Rattle.ds_content.specs.Standing.{standing_in, standing_with, floor_standing_in};
ghost use Rattle.ds_store.specs.Merging.{MergesItem, owed_after};
ghost use Rattle.ds_content.specs.Owed.{owed_flags};
ghost use Rattle.ds_store.specs.Steps.{ContentSteps};

use crate::answer::passed_as;
use crate::change::cause_of_change;
use crate::floor::cause_of_floor;
use crate::reading::refusal_of_merge;
use crate::standing::Standing;
use crate::store::Store;
use ds_entry::{Change, Floor, Item};
use ds_join::{Count, Merge};
use ds_machine::{Cause, Command, Refusal, Reply};
use ds_names::{Key, NoRoom};
use ds_watch::Mask;

impl Store {
    // Returns what a change of the key meets, given its place and whether a floor makes it void.
    pub(super) fn standing(
        &self,
        place: Result<usize, usize>,
        key: &Key,
        void: bool,
    ) -> Standing<'_>
        requires { IsPlace (changes_in self.now.held) key.now place }
        ensures { machine_standing result ≡ standing_with self.now key.now void }
    {
        Standing {
            held: self.content.get_at(place),
            void,
            count: self.content.count(),
            most: self.content.limits().keys(),
            position: self.content.cursor().position,
        }
    }

    // Returns the first cause against another holder's change, given its key's place.
    fn cause_of_change(&self, place: Result<usize, usize>, change: &Change) -> Option<Cause>
        requires { IsPlace (changes_in self.now.held) change.now.key place }
        ensures first { (s : State) → ContentStands self.now s → result ≡ cause_of s (Changed change.now) }
        ensures free { IfNone result (IsFree (standing_in self.now change.now) change.now) }
    {
        let standing = self.standing(place, change.key(), self.content.is_void(change));
        cause_of_change(&standing, change)
    }

    // Returns the first cause against another holder's floor, given its owner's place.
    fn cause_of_floor(&self, place: Result<usize, usize>, floor: &Floor) -> Option<Cause>
        requires { IsFloorPlace (floors_in self.now.held) floor.now.owner place }
        ensures first { (s : State) → ContentStands self.now s → result ≡ cause_of s (Floored floor.now) }
        ensures free { IfNone result (IsFloorFree (floor_standing_in self.now floor.now) floor.now) }
    {
        let standing = self.floor_standing(place, floor);
        cause_of_floor(&standing, floor)
    }

    // Merges a change: it takes effect, is passed over, or is refused. Adds to `total` the subscriptions that are owed
    // it.
    fn merge_change(&mut self, change: &Change, total: &mut Mask) -> Result<Merge, Refusal>
        ensures owed { InEachState self.old (λ s. total.new ≡ owed_after result total.old (owed_flags s (Changed change.now))) }
        ensures step { ContentSteps self.old (λ s t. MergesItem s (Changed change.now) result t) self.new }
        ensures last { result ≡ Err Refusal.NoRoom → InEachState self.old (λ s. MayLackItem s (Changed change.now)) }
    {
        let place = self.content.place(change.key());
        if let Some(cause) = self.cause_of_change(place, change) {
            return passed_as(cause);
        }
        let Ok(owed) = self.content.owed_at(place, change.key()) else {
            return Err(Refusal::NoRoom);
        };
        match self.content.accept_at(place, change, owed) {
            Ok(()) => {
                total.add(owed);
                Ok(Merge::Taken)
            }
            Err(NoRoom) => Err(Refusal::NoRoom),
        }
    }

    // Merges a floor, as `merge_change` does. It is owed to every subscription.
    fn merge_floor(&mut self, floor: Floor, total: &mut Mask) -> Result<Merge, Refusal>
        ensures owed { InEachState self.old (λ s. total.new ≡ owed_after result total.old (owed_flags s (Floored floor))) }
        ensures step { ContentSteps self.old (λ s t. MergesItem s (Floored floor) result t) self.new }
        ensures last { result ≡ Err Refusal.NoRoom → InEachState self.old (λ s. MayLackItem s (Floored floor)) }
    {
        let place = self.content.floor_place(&floor.owner);
        if let Some(cause) = self.cause_of_floor(place, &floor) {
            return passed_as(cause);
        }
        let owed = self.content.owed_by_floor();
        match self.content.raise_at(place, floor, owed) {
            Ok(_) => {
                total.add(owed);
                Ok(Merge::Taken)
            }
            Err(NoRoom) => Err(Refusal::NoRoom),
        }
    }

    // Merges an item.
    fn merge_item(&mut self, item: &Item, total: &mut Mask) -> Result<Merge, Refusal>
        ensures owed { InEachState self.old (λ s. total.new ≡ owed_after result total.old (owed_flags s item.now)) }
        ensures step { ContentSteps self.old (λ s t. MergesItem s item.now result t) self.new }
        ensures last { result ≡ Err Refusal.NoRoom → InEachState self.old (λ s. MayLackItem s item.now) }
    {
        match item {
            Item::Change(change) => self.merge_change(change, total),
            Item::Floor(floor) => self.merge_floor(*floor, total),
        }
    }

    /// Merges the items like `apply`, but only borrows them. They take effect in order, up to the first that is
    /// refused. More than 256 are refused as TooMany. An item is judged before it is copied, so out-of-memory comes
    /// last.
    pub fn fast_merge(&mut self, items: &[Item]) -> Reply
        ensures step { ContentSteps self.old (λ s t. Step s (Command.Merge items.now) result t) self.new }
        ensures last { (s : State) → ContentStands self.old s → IsLast s (Command.Merge items.now) result }
        ensures fits { IsReplyTo (Command.Merge items.now) result }
    {
        let _stood = self.cursor();
        if let Some(refusal) = refusal_of_merge(items.len()) {
            return Reply::Refused(refusal);
        }
        let mut owed = Mask::none();
        let mut count = Count::none();
        for item in items {
            let join = match self.merge_item(item, &mut owed) {
                Ok(join) => join,
                Err(fault) => {
                    return Reply::MergeStopped {
                        done: count.done,
                        fault,
                        owed: owed.number(),
                    };
                }
            };
            count.add(Some(join));
        }
        Reply::Merged {
            done: count.done,
            taken: count.taken,
            stale: count.stale,
            owed: owed.number(),
        }
    }
}
