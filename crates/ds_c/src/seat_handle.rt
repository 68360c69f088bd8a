//! The handle of a seat. It repeats `handle.rt` for another type, because a struct that crosses to C has no type parameter.

ghost use Rattle.std.specs.Prelude.{◌≡◌};
ghost use Rattle.std.specs.declared.option.Option.{Option};
ghost use Rattle.std.specs.declared.option.Option.TheVariants.{None, Some};
ghost use Rattle.std.specs.Option.{MatchOption};
ghost use Rattle.c_desk.specs.declared.seat.Seat.{Seat};
ghost use Rattle.ds_c.specs.Held.{holds_seat};

use crate::loose::Loose;
use c_desk::Seat;
use std::alloc::Global;
use std::marker::Model;
use std::mem::replace;
use std::ptr::null_mut;

/// A pointer to a seat, which is null if the handle is closed.
#[repr(C)]
pub struct SeatHandle {
    at: *mut u8,
    pub ghost value: { Option Seat },
}

impl Model for SeatHandle {
    ghost also_owns = { λ h. holds_seat h.at h.value };
}

unsafe impl Send for SeatHandle {}

impl SeatHandle {
    /// Returns a closed handle.
    pub(crate) fn closed() -> SeatHandle
        ensures { result.value ≡ None }
    {
        SeatHandle { at: null_mut() }
    }

    /// Returns the handle of a seat.
    pub(crate) fn of(seat: Loose<Seat, Global>) -> SeatHandle
        ensures { result.value ≡ Some seat.value }
    {
        let Loose { at, alloc: _ } = seat;
        SeatHandle { at: at as *mut u8 }
    }

    /// Returns the seat of a handle. `None` if it is closed.
    pub(crate) fn into_loose(self, alloc: Global) -> Option<Loose<Seat, Global>>
        ensures { MatchOption result (self.value ≡ None) (λ l. self.value ≡ Some l.value) }
    {
        let SeatHandle { at } = self;
        if at.is_null() {
            None
        } else {
            Some(Loose {
                at: at as *mut Seat,
                alloc,
            })
        }
    }

    /// Takes the seat out, which closes the handle.
    pub(crate) fn take(&mut self, alloc: Global) -> Option<Box<Seat>>
        ensures seat { MatchOption result (self.old.value ≡ None) (λ b. self.old.value ≡ Some b.value) }
        ensures left { self.new.value ≡ None }
    {
        let handle = replace(self, SeatHandle::closed());
        match handle.into_loose(alloc) {
            None => None,
            Some(seat) => Some(seat.into_box()),
        }
    }

    /// Puts a seat into a closed handle.
    #[inline(always)]
    pub(crate) fn put(&mut self, alloc: Global, seat: Box<Seat>)
        requires { self.old.value ≡ None }
        ensures { self.new.value ≡ Some seat.value }
    {
        let before = replace(self, SeatHandle::of(Loose::of(seat)));
        if let Some(_seat) = before.into_loose(alloc) {
            unreachable!()
        }
    }
}
