//! The handle of a bridge. It repeats `handle.rt` for another type, because a struct that crosses to C has no type parameter.

ghost use Rattle.std.specs.Prelude.{◌≡◌};
ghost use Rattle.std.specs.declared.option.Option.{Option};
ghost use Rattle.std.specs.declared.option.Option.TheVariants.{None, Some};
ghost use Rattle.std.specs.Option.{MatchOption};
ghost use Rattle.std.specs.Coded.{coded_option};
ghost use Rattle.c_bridge.specs.declared.bridge.StoreBridge.{StoreBridge};
ghost use Rattle.c_bridge.specs.contracts.bridge.StoreBridge.{the_row as bridge_row};
ghost use Rattle.ds_c.specs.Held.{holds_bridge};

use crate::loose::Loose;
use c_bridge::StoreBridge;
use std::alloc::Global;
use std::marker::Model;
use std::mem::replace;
use std::ptr::null_mut;

/// A pointer to a bridge, which is null if the handle is closed.
#[repr(C)]
pub struct BridgeHandle {
    at: *mut u8,
    pub ghost value: { Option StoreBridge } by { coded_option bridge_row.coded },
}

impl Model for BridgeHandle {
    ghost also_owns = { λ h. holds_bridge h.at h.value };
}

impl BridgeHandle {
    /// Returns a closed handle.
    pub(crate) fn closed() -> BridgeHandle
        ensures { result.value ≡ None }
    {
        BridgeHandle { at: null_mut() }
    }

    /// Returns the handle of a bridge.
    pub(crate) fn of(bridge: Loose<StoreBridge, Global>) -> BridgeHandle
        ensures { result.value ≡ Some bridge.value }
    {
        let Loose { at, alloc: _ } = bridge;
        BridgeHandle { at: at as *mut u8 }
    }

    /// Returns the bridge of a handle. `None` if it is closed.
    pub(crate) fn into_loose(self, alloc: Global) -> Option<Loose<StoreBridge, Global>>
        ensures { MatchOption result (self.value ≡ None) (λ l. self.value ≡ Some l.value) }
    {
        let BridgeHandle { at } = self;
        if at.is_null() {
            None
        } else {
            Some(Loose {
                at: at as *mut StoreBridge,
                alloc,
            })
        }
    }

    /// Takes the bridge out, which closes the handle.
    pub(crate) fn take(&mut self, alloc: Global) -> Option<Box<StoreBridge>>
        ensures bridge { MatchOption result (self.old.value ≡ None) (λ b. self.old.value ≡ Some b.value) }
        ensures left { self.new.value ≡ None }
    {
        let handle = replace(self, BridgeHandle::closed());
        match handle.into_loose(alloc) {
            None => None,
            Some(bridge) => Some(bridge.into_box()),
        }
    }

    /// Puts a bridge into a closed handle.
    #[inline(always)]
    pub(crate) fn put(&mut self, alloc: Global, bridge: Box<StoreBridge>)
        requires { self.old.value ≡ None }
        ensures { self.new.value ≡ Some bridge.value }
    {
        let before = replace(self, BridgeHandle::of(Loose::of(bridge)));
        if let Some(_table) = before.into_loose(alloc) {
            unreachable!()
        }
    }
}
