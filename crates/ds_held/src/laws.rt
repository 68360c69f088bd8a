//! Laws of what is held, over its definitions alone.

ghost use Rattle.ds_held.specs.Memory.{HeldKeyNeedsNoRoom, CopyInPlaceNeedsNoRoom, HeldOwnerIsNotRefused};

/// A law: a merge into a held key is never refused as NoRoom, nor is `merge_copy` of a body that is kept in place. A
/// floor of an owner who has one is never refused.
pub fn held_places_need_no_room()
    ensures merge { HeldKeyNeedsNoRoom }
    ensures copy { CopyInPlaceNeedsNoRoom }
    ensures raise { HeldOwnerIsNotRefused }
{}
