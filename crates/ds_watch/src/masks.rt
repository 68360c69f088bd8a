//! The masks of a held change or floor.

ghost use Rattle.std.specs.Prelude.{◌≡◌, ◌<◌, ◌&&◌, false, slice_index_or};
ghost use Rattle.ds_watch.specs.Masks.{fresh, shown_to, made_at};

use crate::mask::Mask;

/// The subscriptions that are owed a held change or floor, and those of them that haven't been shown it. A subscription
/// is owed each floor, and each change whose key is under its query.
#[derive(Clone, Copy)]
pub struct Masks {
    under: Mask,
    unseen: Mask,
}

impl Masks {
    /// Returns the masks of an item that just took effect, from the subscriptions that are owed it. None has been shown it.
    pub fn fresh(under: Mask) -> Masks
        ensures { result ≡ fresh under }
    {
        Masks {
            under,
            unseen: under,
        }
    }

    /// Returns the subscriptions that are owed the item.
    pub fn under(self) -> Mask
        ensures { result ≡ self.under }
    {
        self.under
    }

    /// Returns whether the subscription of this number hasn't been shown the item.
    pub fn is_unseen(self, sub: usize) -> bool
        requires { sub < 128 }
        ensures { result ≡ slice_index_or self.unseen sub false }
    {
        self.unseen.has(sub)
    }

    /// Returns the masks after the subscription of this number was shown the item.
    pub fn shown_to(self, sub: usize) -> Masks
        requires { sub < 128 }
        ensures { result ≡ shown_to sub self }
    {
        Masks {
            under: self.under,
            unseen: self.unseen.put(sub, false),
        }
    }

    /// Returns the masks after a Subscribe of this number, whose query the item is under if `is_under`. With `initial`, the
    /// subscription hasn't been shown an item under its query; without, it counts as shown.
    pub fn made_at(self, sub: usize, is_under: bool, initial: bool) -> Masks
        requires { sub < 128 }
        ensures made { result ≡ made_at sub is_under initial self }
        ensures here { slice_index_or result.unseen sub false ≡ is_under && initial }
    {
        Masks {
            under: self.under.put(sub, is_under),
            unseen: self.unseen.put(sub, is_under && initial),
        }
    }
}
