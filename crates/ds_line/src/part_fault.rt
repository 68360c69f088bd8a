//! The error of a reader of parts.
ghost use Rattle.std.specs.Prelude.{◌≡◌, length};
ghost use Rattle.ds_line.specs.declared.part_fault.PartFault.TheVariants.{BadPart};

/// Why parts can't be read.
#[derive(Clone, Copy, PartialEq, Eq)]
pub enum PartFault {
    /// The next part can't be read. It begins `left` bytes before the end.
    BadPart { left: usize },
    /// Out of memory for the value that the parts have.
    NoRoom,
}

/// Returns the fault of a part that can't be read, at the front of these bytes.
pub fn stop_at(bytes: &[u8]) -> PartFault
    ensures { result ≡ BadPart (length bytes.now) }
{
    PartFault::BadPart { left: bytes.len() }
}
