//! Where in a line a byte is.

ghost use Rattle.std.specs.Prelude.{◌≡◌, ◌≤◌, length, take};
ghost use Rattle.ds_script.specs.Left.{next, keeps_byte, text_left, after};

/// Where in a line the next byte is.
#[derive(Clone, Copy, PartialEq, Eq)]
pub(crate) enum Place {
    /// It is a line's first.
    Begins,
    /// It belongs to a line that is kept.
    Within,
    /// It belongs to a comment.
    Note,
}

impl Place {
    // Returns the place after a byte.
    fn next(self, byte: u8) -> Place
        ensures { result ≡ next self byte }
    {
        match self {
            Place::Begins if byte == b'\n' => Place::Begins,
            Place::Begins if byte == b'#' => Place::Note,
            Place::Begins => Place::Within,
            _ if byte == b'\n' => Place::Begins,
            other => other,
        }
    }

    // Returns whether a byte is kept.
    fn keeps(self, byte: u8) -> bool
        ensures { result ≡ keeps_byte self byte }
    {
        match self {
            Place::Begins => byte != b'\n' && byte != b'#',
            Place::Within => true,
            Place::Note => false,
        }
    }
}

/// Moves the bytes that are kept to the front, and returns how many they are. `place` is that of the first byte, and
/// then of the one after the last.
pub(crate) fn keep(place: &mut Place, bytes: &mut [u8]) -> usize
    ensures few { result ≤ length bytes.new }
    ensures same { length bytes.new ≡ length bytes.old }
    ensures kept { take result bytes.new ≡ text_left place.old bytes.old }
    ensures after { place.new ≡ after place.old bytes.old }
{
    let mut kept = 0;
    for index in 0..bytes.len() {
        let byte = bytes[index];
        if place.keeps(byte) {
            bytes[kept] = byte;
            kept += 1;
        }
        *place = place.next(byte);
    }
    kept
}
