//! What a change leaves under its key.

ghost use Rattle.std.specs.Prelude.{◌≡◌, ◌<◌, ◌^◌, ◌↔◌, IsTrue, IfOk, IsOk, OnErr};
ghost use Rattle.ds_entry.specs.Change.{kind_of, is_of_kind, is_label_body, IsOfKind, IsLabelBody};
ghost use Rattle.ds_entry.specs.Change.{IsValue, IsBody, IsInPlace, IsBodyInPlace, ValueCopyTakesMemory, BodyCopyTakesMemory};
ghost use Rattle.ds_entry.specs.Left.{value_in};
ghost use Rattle.std.specs.Option.{option_copied};

use crate::blob::Blob;
use crate::text::Text;
use ds_names::{Endpoint, Kind, NoRoom, Version};
use std::alloc::Global;

/// The value of an entry, as in MINIX 3's data store: a label's endpoint, an unsigned 32-bit number, a string, or
/// memory.
#[derive(Debug, PartialEq, Eq, Drop)]
pub enum Value {
    Label(Endpoint),
    U32(u32),
    Str(Text),
    Mem(Blob),
}

/// What a change leaves under its key: a value, or the tombstone of a delete. Tombstones are this project's.
#[derive(Debug, PartialEq, Eq, Drop)]
pub enum Body {
    Put(Value),
    Gone,
}

impl Value {
    /// Returns the kind of the keys that the value may be under.
    pub fn kind(&self) -> Kind
        ensures kind { result ≡ kind_of self.now }
        ensures valid { IsValue self.now }
    {
        self.is_value_proof();
        match self {
            Value::Label(_) => Kind::Label,
            Value::U32(_) => Kind::U32,
            Value::Str(_) => Kind::Str,
            Value::Mem(_) => Kind::Mem,
        }
    }

    // For the prover alone: what the value holds is in its range, as its type guarantees.
    fn is_value_proof(&self)
        ensures { IsValue self.now }
    {
        match self {
            Value::Label(endpoint) => {
                let _slot = endpoint.slot();
            }
            Value::U32(number) => {
                let _number = *number;
            }
            Value::Str(text) => {
                let _bytes = text.bytes();
            }
            Value::Mem(blob) => {
                let _bytes = blob.bytes();
            }
        }
    }

    /// Copies the value. Fails only if memory runs out; the copy of a label, a number, an empty text or an empty blob takes none.
    #[inline(always)]
    pub fn copy(&self, alloc: Global) -> Result<Value, NoRoom>
        ensures same { IfOk result (λ value. value ≡ self.now) }
        ensures in_place { IsInPlace self.now → IsOk result }
        ensures room { OnErr result (ValueCopyTakesMemory self.now) }
    {
        match self {
            Value::Label(endpoint) => Ok(Value::Label(*endpoint)),
            Value::U32(number) => Ok(Value::U32(*number)),
            Value::Str(text) => Ok(Value::Str(text.copy(alloc)?)),
            Value::Mem(blob) => Ok(Value::Mem(blob.copy(alloc)?)),
        }
    }
}

impl Body {
    /// Returns the value of a put, and `None` for a tombstone.
    pub fn value(&self) -> Option<&Value>
        ensures { option_copied result ≡ value_in self.now }
    {
        match self {
            Body::Put(value) => Some(value),
            Body::Gone => None,
        }
    }

    /// Returns whether a key of the kind may have this body: a put's value must be of that kind.
    pub fn is_of_kind(&self, kind: Kind) -> bool
        ensures value { result ≡ is_of_kind kind self.now }
        ensures kind { IsTrue result ↔ IsOfKind kind self.now }
        ensures valid { IsBody self.now }
    {
        match self {
            Body::Put(value) => value.kind() == kind,
            Body::Gone => true,
        }
    }

    /// Returns whether a label may have this body at the version. A label is put with sequence number 0, in the epoch of
    /// its endpoint's generation, and ends with number 1.
    pub fn fits_label(&self, version: &Version) -> bool
        ensures value { result ≡ is_label_body version.now self.now }
        ensures rule { IsTrue result ↔ IsLabelBody version.now self.now }
        ensures seq { version.now.seq < 2 ^ 32 }
    {
        let seq = version.seq;
        match self {
            Body::Put(Value::Label(endpoint)) => {
                seq == 0 && version.epoch == endpoint.generation()
            }
            Body::Put(Value::U32(_) | Value::Str(_) | Value::Mem(_)) => false,
            Body::Gone => seq == 1,
        }
    }

    /// Copies the body. Fails only if memory runs out; only the copy of a text or a blob that isn't empty takes memory.
    #[inline(always)]
    pub fn copy(&self, alloc: Global) -> Result<Body, NoRoom>
        ensures same { IfOk result (λ body. body ≡ self.now) }
        ensures in_place { IsBodyInPlace self.now → IsOk result }
        ensures room { OnErr result (BodyCopyTakesMemory self.now) }
    {
        match self {
            Body::Put(value) => Ok(Body::Put(value.copy(alloc)?)),
            Body::Gone => Ok(Body::Gone),
        }
    }
}
