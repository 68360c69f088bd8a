//! What a field of settings has.

use crate::shown::Plain;
use std::fmt;
use toml::{Table, Value};

/// How many bytes of a text are shown.
const SHOWN: usize = 64;

/// Returns the text in a field.
pub(crate) fn text_in<'a>(fields: &'a Table, field: &str) -> Option<&'a str> {
    match fields.get(field) {
        Some(value) => value.as_str(),
        None => None,
    }
}

/// Returns the fields of a service.
pub(crate) fn service_at(table: &Table, index: usize) -> Option<&Table> {
    let services = match table.get("service") {
        Some(value) => value.as_array()?,
        None => return None,
    };
    match services.get(index) {
        Some(service) => service.as_table(),
        None => None,
    }
}

/// Returns how many services there are.
pub(crate) fn service_count(table: &Table) -> usize {
    match table.get("service") {
        Some(value) => match value.as_array() {
            Some(services) => services.len(),
            None => 0,
        },
        None => 0,
    }
}

/// A value in words: a text or a number as it is, another by its type.
#[derive(Clone, Copy)]
pub(crate) struct Given<'a>(pub &'a Value);

impl fmt::Display for Given<'_> {
    fn fmt<W: fmt::Write>(&self, f: &mut fmt::Formatter<W>) -> fmt::Result {
        if let Some(text) = self.0.as_str() {
            let text = Plain(front_of(text));
            return write!(f, "\"{text}\"");
        }
        if let Some(number) = self.0.as_integer() {
            return write!(f, "{number}");
        }
        f.write_str(if self.0.is_bool() {
            "a boolean"
        } else if self.0.is_float() {
            "a number with a point"
        } else if self.0.is_datetime() {
            "a date"
        } else if self.0.is_array() {
            "another array"
        } else {
            "a table"
        })
    }
}

// Returns the bytes of a text that are shown.
fn front_of(text: &str) -> &[u8] {
    let bytes = text.as_bytes();
    &bytes[..bytes.len().min(SHOWN)]
}
