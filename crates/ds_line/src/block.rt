//! Blocks of bytes that are filled from the front.

ghost use Rattle.std.specs.Prelude.{◌≡◌, ◌+◌, ◌≤◌, ◌++◌, length, take, drop};

/// Copies the bytes into the block, from an index on.
#[inline(always)]
pub fn put(block: &mut [u8], at: usize, bytes: &[u8])
    requires { at + length bytes.now ≤ length block.old }
    ensures { block.new ≡ take at block.old ++ (bytes.now ++ drop (at + length bytes.now) block.old) }
{
    block[at..at + bytes.len()].copy_from_slice(bytes);
}
