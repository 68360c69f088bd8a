//! Appends rows to a text.

use ds_line::append_all;

/// Appends words to a text. `None` if out of memory.
pub(crate) fn tell(text: &mut Vec<u8>, words: &[&[u8]]) -> Option<()> {
    append_all(text, words).ok()
}

/// Appends `true` or `false` and a newline to a text. `None` if out of memory.
pub(crate) fn tell_whether(text: &mut Vec<u8>, before: &[u8], is_so: bool) -> Option<()> {
    match is_so {
        true => tell(text, &[before, b"true\n"]),
        false => tell(text, &[before, b"false\n"]),
    }
}
