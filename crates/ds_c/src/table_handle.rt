//! The handle of a table. It repeats `handle.rt` for another type, because a struct that crosses to C has no type parameter.

ghost use Rattle.std.specs.Prelude.{◌≡◌};
ghost use Rattle.std.specs.declared.option.Option.{Option};
ghost use Rattle.std.specs.declared.option.Option.TheVariants.{None, Some};
ghost use Rattle.std.specs.Option.{MatchOption};
ghost use Rattle.c_store.specs.declared.server_table.ServerTable.{ServerTable};
ghost use Rattle.ds_c.specs.Held.{holds_table};

use crate::loose::Loose;
use c_store::ServerTable;
use std::alloc::Global;
use std::marker::Model;
use std::mem::replace;
use std::ptr::null_mut;

/// A pointer to a table, which is null if the handle is closed.
#[repr(C)]
pub struct TableHandle {
    at: *mut u8,
    pub ghost value: { Option ServerTable },
}

impl Model for TableHandle {
    ghost also_owns = { λ h. holds_table h.at h.value };
}

impl TableHandle {
    /// Returns a closed handle.
    pub(crate) fn closed() -> TableHandle
        ensures { result.value ≡ None }
    {
        TableHandle { at: null_mut() }
    }

    /// Returns the handle of a table.
    pub(crate) fn of(table: Loose<ServerTable, Global>) -> TableHandle
        ensures { result.value ≡ Some table.value }
    {
        let Loose { at, alloc: _ } = table;
        TableHandle { at: at as *mut u8 }
    }

    /// Returns the table of a handle. `None` if it is closed.
    pub(crate) fn into_loose(self, alloc: Global) -> Option<Loose<ServerTable, Global>>
        ensures { MatchOption result (self.value ≡ None) (λ l. self.value ≡ Some l.value) }
    {
        let TableHandle { at } = self;
        if at.is_null() {
            None
        } else {
            Some(Loose {
                at: at as *mut ServerTable,
                alloc,
            })
        }
    }

    /// Takes the table out, which closes the handle.
    pub(crate) fn take(&mut self, alloc: Global) -> Option<Box<ServerTable>>
        ensures table { MatchOption result (self.old.value ≡ None) (λ b. self.old.value ≡ Some b.value) }
        ensures left { self.new.value ≡ None }
    {
        let handle = replace(self, TableHandle::closed());
        match handle.into_loose(alloc) {
            None => None,
            Some(table) => Some(table.into_box()),
        }
    }

    /// Puts a table into a closed handle.
    #[inline(always)]
    pub(crate) fn put(&mut self, alloc: Global, table: Box<ServerTable>)
        requires { self.old.value ≡ None }
        ensures { self.new.value ≡ Some table.value }
    {
        let before = replace(self, TableHandle::of(Loose::of(table)));
        if let Some(_table) = before.into_loose(alloc) {
            unreachable!()
        }
    }
}
