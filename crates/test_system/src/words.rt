//! Appends lines to a text.

use ds_line::append_all;
use ds_names::NoRoom;
use itoa::Buffer;

/// Appends a line.
pub(crate) fn tell(text: &mut Vec<u8>, line: &[u8]) -> Result<(), NoRoom> {
    append_all(text, &[line, b"\n"])
}

/// Appends a line: each word, followed by its number.
pub(crate) fn tell_numbers(text: &mut Vec<u8>, numbers: &[(&str, u64)]) -> Result<(), NoRoom> {
    for (word, number) in numbers {
        let mut digits = Buffer::new();
        append_all(text, &[word.as_bytes(), digits.format(*number).as_bytes()])?;
    }
    tell(text, b"")
}

/// Appends a line: the word, and the number or `none`.
pub(crate) fn tell_number(
    text: &mut Vec<u8>,
    word: &str,
    number: Option<u64>,
) -> Result<(), NoRoom> {
    match number {
        Some(number) => tell_numbers(text, &[(word, number)]),
        None => append_all(text, &[word.as_bytes(), b"none\n"]),
    }
}

/// Appends a line: the word, and the index or `none`.
pub(crate) fn tell_index(
    text: &mut Vec<u8>,
    word: &str,
    index: Option<usize>,
) -> Result<(), NoRoom> {
    match index {
        Some(index) => tell_number(text, word, Some(index as u64)),
        None => tell_number(text, word, None),
    }
}
