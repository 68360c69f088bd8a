//! Blobs: the values of entries of the kind mem.

ghost use Rattle.std.specs.Prelude.{◌≡◌, ◌≢◌, ℕ, [], IfOk, IfErr, OnErr};
ghost use Rattle.std.specs.Bool.{◌==◌};
ghost use Rattle.std.proofs.lemmas.Cmp.{nat_list_eq_equiv};
ghost use Rattle.std.specs.Cmp.{partial_equiv_from_equiv};
ghost use Rattle.std.specs.Cmp.Lexicographic.{pointwise};
ghost use Rattle.ds_entry.specs.Value.{IsBlob};
ghost use Rattle.ds_entry.specs.ValueFault.{IsBlobFault};
ghost use Rattle.ds_entry.specs.declared.blob.BlobFault.TheVariants.{NoRoom as LacksRoom};

use crate::bytes::copy_bytes;
use ds_names::NoRoom;
use std::alloc::Global;
use std::marker::Model;
use thiserror::Error;

/// Why bytes aren't a blob. The causes are judged in this order.
#[derive(Clone, Copy, Debug, PartialEq, Eq, Error)]
pub enum BlobFault {
    /// There are more than 1024 bytes.
    #[error("a blob has at most 1024 bytes")]
    TooLong,
    /// Out of memory.
    #[error("out of memory")]
    NoRoom,
}

/// A value of the kind mem, as in MINIX 3's data store: 0 to 1024 bytes of any value. The limit is this project's.
#[derive(Debug, Drop)]
pub struct Blob {
    bytes: Vec<u8>,
}

impl Model for Blob {
    ghost use Rattle.std.specs.Prelude.{ℕ, List};
    ghost use Rattle.ds_entry.specs.Value.{IsBlob};

    ghost Value = { List ℕ };

    ghost view = { λ t. t.bytes.items };

    ghost invariant = { λ t. IsBlob t.bytes.items };
}

impl Blob {
    /// Copies the bytes into a blob. Refuses more than 1024 as TooLong, then reports NoRoom if memory runs out; an
    /// empty blob takes none.
    pub fn read(alloc: Global, bytes: &[u8]) -> Result<Blob, BlobFault>
        ensures found { IfOk result (λ blob. blob ≡ bytes.now) }
        ensures valid { IfOk result IsBlob }
        ensures refused { IfErr result (λ fault. IsBlobFault fault bytes.now) }
        ensures room { IfErr result (λ fault. fault ≡ LacksRoom → bytes.now ≢ []) }
    {
        if bytes.len() > 1024 {
            return Err(BlobFault::TooLong);
        }
        match copy_bytes(alloc, bytes) {
            Ok(bytes) => Ok(Blob { bytes }),
            Err(_) => Err(BlobFault::NoRoom),
        }
    }

    /// Returns the blob's bytes, 0 to 1024.
    pub fn bytes(&self) -> &[u8]
        ensures value { result.now ≡ self.now }
        ensures valid { IsBlob self.now }
    {
        &self.bytes
    }

    /// Copies the blob. Fails only if memory runs out; the copy of an empty blob takes none.
    pub fn copy(&self, alloc: Global) -> Result<Blob, NoRoom>
        ensures same { IfOk result (λ blob. blob ≡ self.now) }
        ensures room { OnErr result (self.now ≢ []) }
    {
        Ok(Blob {
            bytes: copy_bytes(alloc, &self.bytes)?,
        })
    }
}

impl PartialEq for Blob {
    ghost eq = { pointwise ◌==◌ };

    ghost laws = { partial_equiv_from_equiv nat_list_eq_equiv };

    fn eq(&self, other: &Blob) -> bool {
        self.bytes() == other.bytes()
    }
}

impl Eq for Blob {
    ghost laws = { nat_list_eq_equiv };
}
