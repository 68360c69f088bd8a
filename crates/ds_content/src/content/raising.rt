//! Floors that take effect.

ghost use Rattle.std.specs.Prelude.{◌≡◌, ◌∷◌, [], None, is_some, length, map, IfOk, OnOk, OnErr};
ghost use Rattle.ds_entry.specs.declared.floor.Floor as floors;
ghost use Rattle.ds_entry.specs.declared.item.Item.TheVariants.{Floor as Floored};
ghost use Rattle.ds_held.specs.Kept.{puts_void_by, IsFloorPlace};
ghost use Rattle.ds_machine.specs.Parts.{changes_in, floors_in, floor_at};
ghost use Rattle.ds_machine.specs.State.{State, takes_effect};
ghost use Rattle.ds_watch.specs.Mask.{padded};
ghost use Rattle.ds_content.specs.Stands.{ContentStands, StandsAfter};
ghost use Rattle.ds_content.specs.Owed.{owed_flags};
ghost use Rattle.ds_content.specs.Standing.{floor_standing_in};
ghost use Rattle.ds_machine.specs.Standing.{IsFloorFree};

use crate::content::Content;
use ds_entry::{Floor, Item};
use ds_names::NoRoom;
use ds_watch::{Mask, Masks};

impl Content {
    /// Returns the subscriptions that are owed a floor: all of them.
    pub fn owed_by_floor(&self) -> Mask
        ensures value { result ≡ padded (map is_some self.now.subscriptions) }
        ensures owed { (s : State) (f : floors.Floor) → ContentStands self.now s → result ≡ owed_flags s (Floored f) }
    {
        self.subscriptions.made()
    }

    /// Lets a floor take effect at its owner's place: raises it, drops what it makes void, and marks it to be shown to
    /// all that it is owed to. Returns how many puts it dropped. NoRoom changes nothing, and comes only if the owner
    /// has no floor.
    pub fn raise_at(
        &mut self,
        place: Result<usize, usize>,
        floor: Floor,
        owed: Mask,
    ) -> Result<usize, NoRoom>
        requires place { IsFloorPlace (floors_in self.old.held) floor.owner place }
        requires owed { owed ≡ padded (map is_some self.old.subscriptions) }
        requires free { IsFloorFree (floor_standing_in self.old floor) floor }
        ensures count { IfOk result (λ count. count ≡ length (puts_void_by floor (changes_in self.old.held))) }
        ensures ok { OnOk result (StandsAfter self.old (λ s. takes_effect s (Floored floor ∷ [])) self.new) }
        ensures err { OnErr result (self.new ≡ self.old) }
        ensures new_owner { OnErr result (floor_at self.old.held floor.owner ≡ None) }
    {
        let item = item_of(&floor);
        let _held = self.held.held();
        let count = self.held.raise_at(place, floor, Masks::fresh(owed))?;
        self.journal.push(item);
        self.pending.add(owed);
        Ok(count)
    }
}

// Returns the floor as an item.
fn item_of(floor: &Floor) -> Item
    ensures { result ≡ Floored floor.now }
{
    Item::Floor(*floor)
}
