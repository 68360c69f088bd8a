//! Limits on what may be held.

ghost use Rattle.std.specs.Prelude.{◌≡◌};
ghost use Rattle.ds_held.specs.Limits.{IsLimits, larger, limits_for, smaller};

use std::marker::Model;

/// The greatest numbers of subscriptions of a store and of keys of a holder: 128 and 4096, or, in old traces, 64 and
/// 1024. There are no other limits of this type.
#[derive(Clone, Copy, PartialEq, Eq)]
pub struct Limits {
    subs: u32,
    keys: u32,
}

impl Model for Limits {
    ghost use Rattle.ds_held.specs.Limits.{LimitsRecord, IsLimits, limits_of};

    ghost Value = { LimitsRecord };

    ghost view = { λ l. limits_of l.subs l.keys };

    ghost invariant = { λ l. IsLimits (limits_of l.subs l.keys) };

    ghost inverse = { λ l. record { subs = l.subs; keys = l.keys } };
}

impl Limits {
    /// Returns the limits with these numbers. `None` if there are no such limits.
    pub fn of(subs: u32, keys: u32) -> Option<Limits>
        ensures { result ≡ limits_for subs keys }
    {
        if subs == 64 && keys == 1024 || subs == 128 && keys == 4096 {
            Some(Limits { subs, keys })
        } else {
            None
        }
    }

    /// Returns 64 subscriptions and 1024 keys.
    pub fn smaller() -> Limits
        ensures { result ≡ smaller }
    {
        Limits {
            subs: 64,
            keys: 1024,
        }
    }

    /// Returns 128 subscriptions and 4096 keys.
    pub fn larger() -> Limits
        ensures { result ≡ larger }
    {
        Limits {
            subs: 128,
            keys: 4096,
        }
    }

    /// Returns the most subscriptions.
    pub fn subs(self) -> u32
        ensures count { result ≡ self.subs }
        ensures limits { IsLimits self }
    {
        self.subs
    }

    /// Returns the most keys.
    pub fn keys(self) -> usize
        ensures count { result ≡ self.keys }
        ensures limits { IsLimits self }
    {
        self.keys as usize
    }
}
