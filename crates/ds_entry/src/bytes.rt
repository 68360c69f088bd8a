//! Copies of the bytes that a value has.

ghost use Rattle.std.specs.Prelude.{◌≡◌, ◌≢◌, [], IfOk, OnErr};

use ds_names::NoRoom;
use std::alloc::Global;

// Returns a copy of the bytes. The copy of none takes no memory.
pub(crate) fn copy_bytes(alloc: Global, bytes: &[u8]) -> Result<Vec<u8>, NoRoom>
    ensures same { IfOk result (λ copy. copy.items ≡ bytes.now) }
    ensures room { OnErr result (bytes.now ≢ []) }
{
    if bytes.is_empty() {
        return Ok(Vec::new(alloc));
    }
    Ok(bytes.to_vec(alloc)?)
}
