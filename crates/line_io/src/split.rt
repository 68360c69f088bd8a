//! Lines in bytes.

ghost use Rattle.std.specs.Prelude.{◌≡◌, ◌++◌, MatchOption};
ghost use Rattle.line_io.specs.Lines.{IsUnbroken, BreaksAt, EndsLine};

use memchr::memchr;

/// Returns the index of the first newline.
pub fn newline_place(text: &[u8]) -> Option<usize>
    ensures { MatchOption result (IsUnbroken text.now) (BreaksAt text.now) }
{
    memchr(b'\n', text)
}

/// Splits off the first line, with its newline. `None` if the text has no newline.
pub fn split_line(text: &[u8]) -> Option<(&[u8], &[u8])>
    ensures { MatchOption result (IsUnbroken text.now) (λ p. EndsLine p.0.now × (text.now ≡ p.0.now ++ p.1.now)) }
{
    match newline_place(text) {
        Some(place) => Some(text.split_at(place + 1)),
        None => None,
    }
}
