//! The handle of a map. It repeats `handle.rt` for another type, because a struct that crosses to C has no type parameter.

ghost use Rattle.std.specs.Prelude.{◌≡◌};
ghost use Rattle.std.specs.declared.option.Option.{Option};
ghost use Rattle.std.specs.declared.option.Option.TheVariants.{None, Some};
ghost use Rattle.std.specs.Option.{MatchOption};
ghost use Rattle.std.specs.Coded.{coded_option};
ghost use Rattle.ds_submap.specs.Map.{SubMapRecord};
ghost use Rattle.ds_submap.specs.contracts.map.SubMap.{the_row as map_row};
ghost use Rattle.ds_c.specs.Held.{holds_map};

use crate::loose::Loose;
use ds_submap::SubMap;
use std::alloc::Global;
use std::marker::Model;
use std::mem::replace;
use std::ptr::null_mut;

/// A pointer to a map, which is null if the handle is closed.
#[repr(C)]
pub struct MapHandle {
    at: *mut u8,
    pub ghost value: { Option SubMapRecord } by { coded_option map_row.coded },
}

impl Model for MapHandle {
    ghost also_owns = { λ h. holds_map h.at h.value };
}

impl MapHandle {
    /// Returns a closed handle.
    pub(crate) fn closed() -> MapHandle
        ensures { result.value ≡ None }
    {
        MapHandle { at: null_mut() }
    }

    /// Returns the handle of a map.
    pub(crate) fn of(map: Loose<SubMap, Global>) -> MapHandle
        ensures { result.value ≡ Some map.value }
    {
        let Loose { at, alloc: _ } = map;
        MapHandle { at: at as *mut u8 }
    }

    /// Returns the map of a handle. `None` if it is closed.
    pub(crate) fn into_loose(self, alloc: Global) -> Option<Loose<SubMap, Global>>
        ensures { MatchOption result (self.value ≡ None) (λ l. self.value ≡ Some l.value) }
    {
        let MapHandle { at } = self;
        if at.is_null() {
            None
        } else {
            Some(Loose {
                at: at as *mut SubMap,
                alloc,
            })
        }
    }

    /// Takes the map out, which closes the handle.
    pub(crate) fn take(&mut self, alloc: Global) -> Option<Box<SubMap>>
        ensures map { MatchOption result (self.old.value ≡ None) (λ b. self.old.value ≡ Some b.value) }
        ensures left { self.new.value ≡ None }
    {
        let handle = replace(self, MapHandle::closed());
        match handle.into_loose(alloc) {
            None => None,
            Some(map) => Some(map.into_box()),
        }
    }

    /// Puts a map into a closed handle.
    #[inline(always)]
    pub(crate) fn put(&mut self, alloc: Global, map: Box<SubMap>)
        requires { self.old.value ≡ None }
        ensures { self.new.value ≡ Some map.value }
    {
        let before = replace(self, MapHandle::of(Loose::of(map)));
        if let Some(_map) = before.into_loose(alloc) {
            unreachable!()
        }
    }
}
