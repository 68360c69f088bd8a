//! Names what is often found in a line by mistake: two spaces, comments, keys of a terminal.

use ds_names::read_byte;

/// The three bytes that some editors put before a text in UTF-8.
pub(crate) const BYTE_ORDER_MARK: &[u8] = b"\xef\xbb\xbf";

/// Returns a sentence about what is at the place, if that says more than what was expected there.
pub(crate) fn stray_at(text: &[u8], place: usize, rest: &[u8]) -> Option<&'static str> {
    if let Some(after) = read_byte(rest, 0x1b) {
        return Some(key(after));
    }
    if place == 0 {
        return stray_first(rest);
    }
    let before = text.get(place - 1).copied();
    if before == Some(b' ') && rest.first().copied() == Some(b' ') {
        return Some("one space was expected between parts; two were found");
    }
    None
}

// Returns a sentence about what is there instead of a command.
fn stray_first(rest: &[u8]) -> Option<&'static str> {
    match rest.first().copied() {
        None => Some(
            "a command was expected; the line is empty: `script 2` as the first line allows that",
        ),
        Some(b'#') => Some(
            "a command was expected; a comment was found: `script 2` as the first line allows them",
        ),
        Some(b'>') if rest.starts_with(b"> ") => {
            Some("a command was expected; a prompt was found: leave out the `> `")
        }
        _ => None,
    }
}

// Returns a sentence about a terminal's key, by the bytes after the escape.
fn key(after: &[u8]) -> &'static str {
    match after.get(1).copied() {
        Some(b'A') => "the Up key was found: `rlwrap dsctl` adds history and editing",
        Some(b'B') => "the Down key was found: `rlwrap dsctl` adds history and editing",
        Some(b'C') => "the Right key was found: `rlwrap dsctl` adds history and editing",
        Some(b'D') => "the Left key was found: `rlwrap dsctl` adds history and editing",
        _ => "a key of the terminal was found: `rlwrap dsctl` adds history and editing",
    }
}
