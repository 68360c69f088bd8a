//! Lists of names that a service may publish.

ghost use Rattle.std.specs.Prelude.{◌≡◌, ◌≢◌, ◌++◌, ◌∷◌, [], length, slice_get, OnOk, IfErr, OnErr, IfOk};
ghost use Rattle.std.specs.Option.{option_copied};
ghost use Rattle.rs_settings.specs.Shared.{has_name};

use ds_names::{Name, NoRoom};
use std::alloc::{AllocFailed, Global};
use std::marker::Model;

/// A list of names.
#[derive(Drop)]
pub struct Names {
    names: Vec<Name>,
}

impl Model for Names {
    ghost use Rattle.std.specs.Prelude.{ℕ, List};

    ghost Value = { List (List ℕ) };

    ghost view = { λ a. a.names.items };
}

impl Names {
    /// Returns an empty list. Takes no memory.
    pub fn new(alloc: Global) -> Names
        ensures { result ≡ [] }
    {
        Names {
            names: Vec::new(alloc),
        }
    }

    /// Appends a name. If memory runs out, the list is unchanged and the error hands the name back.
    pub fn push(&mut self, name: Name) -> Result<(), AllocFailed<Name>>
        ensures ok { OnOk result (self.new ≡ self.old ++ name ∷ []) }
        ensures err { OnErr result (self.new ≡ self.old) }
        ensures back { IfErr result (λ back. back.value ≡ name) }
    {
        self.names.push(name)
    }

    /// Returns the number of names.
    pub fn len(&self) -> usize
        ensures { result ≡ length self.now }
    {
        self.names.len()
    }

    /// Returns the name at an index from 0, or `None` past the end.
    pub fn get(&self, index: usize) -> Option<&Name>
        ensures { option_copied result ≡ slice_get self.now index }
    {
        self.names.get(index)
    }

    /// Returns whether the list has the name.
    pub(crate) fn has(&self, name: &Name) -> bool
        ensures { result ≡ has_name self.now name.now }
    {
        for own in &self.names {
            if *name == *own {
                return true;
            }
        }
        false
    }

    /// Returns a copy. Fails only if memory runs out; the copy of an empty list takes none.
    pub fn copy(&self, alloc: Global) -> Result<Names, NoRoom>
        ensures same { IfOk result (λ names. names ≡ self.now) }
        ensures room { OnErr result (self.now ≢ []) }
    {
        if self.names.is_empty() {
            return Ok(Names::new(alloc));
        }
        Ok(Names {
            names: self.names.as_slice().to_vec(alloc)?,
        })
    }
}
