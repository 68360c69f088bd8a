//! The pass of a command.

ghost use Rattle.std.specs.Prelude.{◌≡◌, ◌≤◌, ◌++◌, OnOk, OnErr};
ghost use Rattle.trace_record.specs.Asking.{asked_by, has_pass};

use ds_line::append_all;
use ds_names::NoRoom;

/// Returns whether a line begins with a pass: a digit.
pub(crate) fn has_pass(line: &[u8]) -> bool
    ensures { result ≡ has_pass line.now }
{
    match line.first() {
        Some(byte) => byte.is_ascii_digit(),
        None => false,
    }
}

/// Appends the trace's `>` line for a line, or nothing if memory runs out. Without a pass, it is 0.
pub(crate) fn append_asking(buffer: &mut Vec<u8>, line: &[u8]) -> Result<(), NoRoom>
    ensures written { OnOk result (buffer.new.items ≡ buffer.old.items ++ asked_by line.now) }
    ensures unchanged { OnErr result (buffer.new.items ≡ buffer.old.items) }
{
    if has_pass(line) {
        append_all(buffer, &[b"> ", line])
    } else {
        append_all(buffer, &[b"> 0 ", line])
    }
}

/// Returns how many bytes the trace adds in front of a line.
pub(crate) fn mark_length(line: &[u8]) -> usize
    ensures { result ≤ 4 }
{
    if has_pass(line) { 2 } else { 4 }
}
