//! Finds places in a settings text.

use ds_names::is_name_byte;

/// Returns the line, from 1, of the byte at a place.
pub(crate) fn line_at(text: &[u8], place: usize) -> usize {
    let before = text.get(..place).unwrap_or(text);
    before
        .iter()
        .filter(|byte| **byte == b'\n')
        .count()
        .saturating_add(1)
}

/// Returns the line, from 1, that first assigns a field; for a service's field, after the header of the service.
pub(crate) fn field_line(text: &[u8], service: Option<usize>, field: &[u8]) -> Option<usize> {
    let begin = match service {
        Some(index) => service_place(text, index).unwrap_or(0),
        None => 0,
    };
    for place in begin..text.len() {
        let (before, rest) = text.split_at(place);
        if gives(before, rest, field) {
            return Some(line_at(text, place));
        }
    }
    None
}

/// Returns the line, from 1, of a service's header, if it has one.
pub(crate) fn service_line(text: &[u8], service: Option<usize>) -> Option<usize> {
    let place = service_place(text, service?)?;
    Some(line_at(text, place))
}

// Returns the place of a service's header, `[[service]]`; without headers, that of its inline table.
fn service_place(text: &[u8], index: usize) -> Option<usize> {
    match place_of(text, b"[[service]]", 0) {
        Some(_) => place_of(text, b"[[service]]", index),
        None => place_of(text, b"{", index),
    }
}

// Returns the place of the part number `index` of a text that is this.
fn place_of(text: &[u8], part: &[u8], index: usize) -> Option<usize> {
    let mut seen = 0usize;
    for place in 0..text.len() {
        if text[place..].starts_with(part) {
            if seen == index {
                return Some(place);
            }
            seen = seen.saturating_add(1);
        }
    }
    None
}

// Whether the field begins `rest`, right after `before`, and an equals sign or the end of a header follows it.
fn gives(before: &[u8], rest: &[u8], field: &[u8]) -> bool {
    if before.last().is_some_and(|byte| is_name_byte(*byte)) {
        return false;
    }
    match rest.strip_prefix(field) {
        Some(after) => matches!(after.trim_ascii_start().first().copied(), Some(b'=' | b']')),
        None => false,
    }
}
