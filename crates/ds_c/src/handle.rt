//! The handle of a store, which C keeps. A struct that crosses to C has no type parameter, so a map has a handle of its own.

ghost use Rattle.std.specs.Prelude.{◌≡◌};
ghost use Rattle.std.specs.declared.option.Option.{Option};
ghost use Rattle.std.specs.declared.option.Option.TheVariants.{None, Some};
ghost use Rattle.std.specs.Option.{MatchOption};
ghost use Rattle.c_keeper.specs.declared.session.KeeperSession.{KeeperSession};
ghost use Rattle.ds_c.specs.Held.{holds};

use crate::loose::Loose;
use c_keeper::KeeperSession;
use std::alloc::Global;
use std::marker::Model;
use std::mem::replace;
use std::ptr::null_mut;

/// A pointer to a session, which is null if the handle is closed.
#[repr(C)]
pub struct Handle {
    at: *mut u8,
    pub ghost value: { Option KeeperSession },
}

impl Model for Handle {
    ghost also_owns = { λ h. holds h.at h.value };
}

impl Handle {
    /// Returns a closed handle.
    pub(crate) fn closed() -> Handle
        ensures { result.value ≡ None }
    {
        Handle { at: null_mut() }
    }

    /// Returns the handle of a session.
    pub(crate) fn of(session: Loose<KeeperSession, Global>) -> Handle
        ensures { result.value ≡ Some session.value }
    {
        let Loose { at, alloc: _ } = session;
        Handle { at: at as *mut u8 }
    }

    /// Returns the session of a handle. `None` if it is closed.
    pub(crate) fn into_loose(self, alloc: Global) -> Option<Loose<KeeperSession, Global>>
        ensures { MatchOption result (self.value ≡ None) (λ l. self.value ≡ Some l.value) }
    {
        let Handle { at } = self;
        if at.is_null() {
            None
        } else {
            Some(Loose {
                at: at as *mut KeeperSession,
                alloc,
            })
        }
    }

    /// Takes the session out, which closes the handle.
    pub(crate) fn take(&mut self, alloc: Global) -> Option<Box<KeeperSession>>
        ensures session { MatchOption result (self.old.value ≡ None) (λ b. self.old.value ≡ Some b.value) }
        ensures left { self.new.value ≡ None }
    {
        let handle = replace(self, Handle::closed());
        match handle.into_loose(alloc) {
            None => None,
            Some(session) => Some(session.into_box()),
        }
    }

    /// Puts a session into a closed handle.
    #[inline(always)]
    pub(crate) fn put(&mut self, alloc: Global, session: Box<KeeperSession>)
        requires { self.old.value ≡ None }
        ensures { self.new.value ≡ Some session.value }
    {
        let before = replace(self, Handle::of(Loose::of(session)));
        if let Some(_session) = before.into_loose(alloc) {
            unreachable!()
        }
    }
}
