//! Scopes of keys.

use ds_names::Key;

/// A set of keys, with a test for membership that can't fail. The test takes `&mut` for its buffers; the set is
/// unchanged.
pub trait KeyScope {
    ghost use Rattle.std.specs.Prelude.{◌≡◌, Bool};
    ghost use Rattle.ds_names.specs.declared.key.Key.{Key};

    ghost keeps: { Self → Key → Bool };

    /// Returns whether the key is in the set.
    fn admits(&mut self, key: &Key) -> bool
        ensures answer { result ≡ keeps self.old key.now }
        ensures same { keeps self.new ≡ keeps self.old };
}

/// The scope of all keys.
#[derive(Clone, Copy, PartialEq, Eq)]
pub struct AllKeys;

impl KeyScope for AllKeys {
    ghost use Rattle.ds_feed.specs.Feed.{all_keys};

    ghost keeps = { λ _. all_keys };

    fn admits(&mut self, _key: &Key) -> bool {
        true
    }
}
