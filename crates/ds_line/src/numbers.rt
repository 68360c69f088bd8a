//! Lines of numbers.

ghost use Rattle.std.specs.Prelude.{◌≡◌, ◌++◌, ◌∷◌, [], length, take, OnOk, OnErr};
ghost use Rattle.std.specs.List.{flat_map};
ghost use Rattle.std.specs.Fmt.{decimal};

use crate::writing::{append, append_all};
use ds_names::NoRoom;
use itoa::Buffer;

/// Appends pairs of a text and a decimal number, and a newline. If memory runs out, the buffer is unchanged.
pub fn append_numbers(buffer: &mut Vec<u8>, numbers: &[(&[u8], u64)]) -> Result<(), NoRoom>
    ensures written { OnOk result (buffer.new.items
        ≡ buffer.old.items ++ (flat_map (λ n. n.0.now ++ decimal n.1) numbers.now ++ 10 ∷ [])) }
    ensures unchanged { OnErr result (buffer.new.items ≡ buffer.old.items) }
{
    let start = buffer.len();
    let written = put_numbers(buffer, numbers);
    if written.is_err() {
        buffer.truncate(start);
    }
    written
}

// Like `append_numbers`, but if memory runs out, the buffer may have a part of the line.
fn put_numbers(buffer: &mut Vec<u8>, numbers: &[(&[u8], u64)]) -> Result<(), NoRoom>
    ensures written { OnOk result (buffer.new.items
        ≡ buffer.old.items ++ (flat_map (λ n. n.0.now ++ decimal n.1) numbers.now ++ 10 ∷ [])) }
    ensures kept { OnErr result (take (length buffer.old.items) buffer.new.items ≡ buffer.old.items) }
{
    for (before, number) in numbers {
        let mut digits = Buffer::new();
        append_all(buffer, &[before, digits.format(*number).as_bytes()])?;
    }
    append(buffer, b"\n")
}
