//! Changes that take effect.

ghost use Rattle.std.specs.Prelude.{◌≡◌, ◌∷◌, [], None, ◌⊎◌, IfOk, OnOk, OnErr};
ghost use Rattle.ds_entry.specs.Change.{ChangeRecord, BodyCopyTakesMemory};
ghost use Rattle.ds_entry.specs.declared.item.Item.TheVariants.{Change as Changed};
ghost use Rattle.ds_held.specs.Kept.{IsPlace};
ghost use Rattle.ds_machine.specs.Parts.{changes_in, held_at};
ghost use Rattle.ds_machine.specs.State.{State, takes_effect};
ghost use Rattle.ds_watch.specs.Followed.{owed_for};
ghost use Rattle.ds_watch.specs.Mask.{padded};
ghost use Rattle.ds_content.specs.Stands.{ContentStands, StandsAfter};
ghost use Rattle.ds_content.specs.Owed.{owed_flags};
ghost use Rattle.ds_content.specs.Standing.{standing_in};
ghost use Rattle.ds_machine.specs.Standing.{IsFree};

use crate::content::Content;
use ds_entry::{Body, Change, Item};
use ds_names::{Key, NoRoom};
use ds_watch::{Mask, Masks};

impl Content {
    /// Returns the subscriptions that are owed a change of the key at `place`. For a held key it matches no pattern and
    /// takes no memory.
    #[inline(always)]
    pub fn owed_at(&self, place: Result<usize, usize>, key: &Key) -> Result<Mask, NoRoom>
        requires { IsPlace (changes_in self.now.held) key.now place }
        ensures value { IfOk result (λ owed. owed ≡ padded (owed_for key.now self.now.subscriptions)) }
        ensures owed { (s : State) (c : ChangeRecord) → ContentStands self.now s → c.key ≡ key.now
            → IfOk result (λ owed. owed ≡ owed_flags s (Changed c)) }
        ensures held { OnErr result (held_at self.now.held key.now ≡ None) }
    {
        let _held = self.held.held();
        match self.held.marked().get_at(place) {
            Some((_, masks)) => Ok(masks.under()),
            None => self.subscriptions.owed(self.alloc, key),
        }
    }

    /// Lets a change take effect at its key's place, to be shown to all that it is owed to. What is held and the
    /// journal get a copy each. NoRoom changes nothing, and comes only if the key isn't held or the copy takes memory.
    pub fn accept_at(
        &mut self,
        place: Result<usize, usize>,
        change: &Change,
        owed: Mask,
    ) -> Result<(), NoRoom>
        requires place { IsPlace (changes_in self.old.held) change.now.key place }
        requires owed { owed ≡ padded (owed_for change.now.key self.old.subscriptions) }
        requires free { IsFree (standing_in self.old change.now) change.now }
        ensures ok { OnOk result (StandsAfter self.old (λ s. takes_effect s (Changed change.now ∷ [])) self.new) }
        ensures err { OnErr result (self.new ≡ self.old) }
        ensures wants { OnErr result ((held_at self.old.held change.now.key ≡ None) ⊎ BodyCopyTakesMemory change.now.body) }
    {
        let held = change.body().copy(self.alloc)?;
        let listed = change.body().copy(self.alloc)?;
        let _held = self.held.held();
        self.held
            .put_at(place, again(change, held), Masks::fresh(owed))?;
        self.journal.push(Item::Change(again(change, listed)));
        self.pending.add(owed);
        Ok(())
    }
}

// Returns the change with another copy of its body.
#[inline(always)]
fn again(change: &Change, body: Body) -> Change
    requires { body ≡ change.now.body }
    ensures { result ≡ change.now }
{
    Change::from_parts(*change.key(), *change.owner(), change.version(), body)
}
