//! The handle of a desk. It repeats `handle.rt` for another type, because a struct that crosses to C has no type parameter.

ghost use Rattle.std.specs.Prelude.{◌≡◌};
ghost use Rattle.std.specs.declared.option.Option.{Option};
ghost use Rattle.std.specs.declared.option.Option.TheVariants.{None, Some};
ghost use Rattle.std.specs.Option.{MatchOption};
ghost use Rattle.std.specs.Coded.{coded_option};
ghost use Rattle.c_desk.specs.declared.board.Board.{Board};
ghost use Rattle.c_desk.specs.contracts.board.Board.{the_row as board_row};
ghost use Rattle.ds_c.specs.Held.{holds_desk};

use crate::loose::Loose;
use c_desk::Board;
use std::alloc::Global;
use std::marker::Model;
use std::mem::replace;
use std::ptr::null_mut;

/// A pointer to a board, which is null if the handle is closed.
#[repr(C)]
pub struct DeskHandle {
    at: *mut u8,
    pub ghost value: { Option Board } by { coded_option board_row.coded },
}

impl Model for DeskHandle {
    ghost also_owns = { λ h. holds_desk h.at h.value };
}

unsafe impl Send for DeskHandle {}

impl DeskHandle {
    /// Returns a closed handle.
    pub(crate) fn closed() -> DeskHandle
        ensures { result.value ≡ None }
    {
        DeskHandle { at: null_mut() }
    }

    /// Returns the handle of a board.
    pub(crate) fn of(board: Loose<Board, Global>) -> DeskHandle
        ensures { result.value ≡ Some board.value }
    {
        let Loose { at, alloc: _ } = board;
        DeskHandle { at: at as *mut u8 }
    }

    /// Returns the board of a handle. `None` if it is closed.
    pub(crate) fn into_loose(self, alloc: Global) -> Option<Loose<Board, Global>>
        ensures { MatchOption result (self.value ≡ None) (λ l. self.value ≡ Some l.value) }
    {
        let DeskHandle { at } = self;
        if at.is_null() {
            None
        } else {
            Some(Loose {
                at: at as *mut Board,
                alloc,
            })
        }
    }

    /// Takes the board out, which closes the handle.
    pub(crate) fn take(&mut self, alloc: Global) -> Option<Box<Board>>
        ensures board { MatchOption result (self.old.value ≡ None) (λ b. self.old.value ≡ Some b.value) }
        ensures left { self.new.value ≡ None }
    {
        let handle = replace(self, DeskHandle::closed());
        match handle.into_loose(alloc) {
            None => None,
            Some(board) => Some(board.into_box()),
        }
    }

    /// Puts a board into a closed handle.
    #[inline(always)]
    pub(crate) fn put(&mut self, alloc: Global, board: Box<Board>)
        requires { self.old.value ≡ None }
        ensures { self.new.value ≡ Some board.value }
    {
        let before = replace(self, DeskHandle::of(Loose::of(board)));
        if let Some(_board) = before.into_loose(alloc) {
            unreachable!()
        }
    }
}
