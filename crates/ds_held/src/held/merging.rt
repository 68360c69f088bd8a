//! The two steps of a merge: to judge a change, and to take it.

ghost use Rattle.std.specs.Prelude.{◌≡◌, Ok, IfErr};
ghost use Rattle.ds_entry.specs.Change.{IsChange};
ghost use Rattle.ds_join.specs.declared.merge.Merge.TheVariants.{Taken};
ghost use Rattle.ds_held.specs.Held.{held_changes, IsSound};
ghost use Rattle.ds_held.specs.Kept.{IsPlace};
ghost use Rattle.ds_held.specs.Merge.{after_merge, IsMergeRefused, MergeAnswer};

use super::Held;
use crate::list::{judge, judge_new};
use ds_entry::Change;
use ds_join::{JoinFault, Merge};
use ds_names::NoRoom;

impl Held {
    // Judges a change at its place, as if there were memory for it.
    pub(super) fn outlook(
        &self,
        place: Result<usize, usize>,
        change: &Change,
    ) -> Result<Merge, JoinFault>
        requires { IsPlace (held_changes self.now) change.now.key place }
        ensures answer { MergeAnswer self.now change.now result }
        ensures sound { IsSound self.now }
    {
        let is_void = self.is_void(change);
        match place {
            Ok(i) => judge(self.changes.at(i), is_void, change),
            Err(_) => judge_new(self.changes.len(), self.limits.keys(), is_void),
        }
    }

    // Puts a change that was judged to be taken at its place.
    pub(super) fn take(
        &mut self,
        place: Result<usize, usize>,
        change: Change,
    ) -> Result<Merge, JoinFault>
        requires place { IsPlace (held_changes self.old) change.key place }
        requires taken { MergeAnswer self.old change (Ok Taken) }
        ensures answer { MergeAnswer self.old change result }
        ensures refused { IfErr result (IsMergeRefused self.old change) }
        ensures after { self.new ≡ after_merge self.old change result }
        ensures sound { IsSound self.new }
        ensures change { IsChange change }
    {
        match self.put(place, change) {
            Ok(()) => Ok(Merge::Taken),
            Err(NoRoom) => Err(JoinFault::NoRoom),
        }
    }
}
