//! The fields of settings: which there are, what they may have, and whether a table has that.

use crate::given::text_in;
use ds_names::Name;
use toml::{Table, Value};

/// The fields at the top.
const AT_TOP: [&str; 3] = ["format", "slots", "service"];

/// The fields of a service of format 1, in the order in which they are judged.
const OF_FORMAT_1: [&str; 6] = ["label", "class", "unit", "period", "limit", "publishes"];

/// The fields of a service of format 2, likewise.
const OF_FORMAT_2: [&str; 10] = [
    "label",
    "class",
    "unit",
    "period",
    "limit",
    "publishes",
    "complains",
    "connects",
    "forget",
    "startup",
];

/// The classes of services.
pub(crate) const CLASSES: [&str; 4] = ["block", "character", "network", "server"];

/// The most services, and the most names in a field of one.
pub(crate) const MOST: usize = 64;

/// Returns the fields that exist in a document: a service's if a service is named, else those at the top. The fields of
/// format 2 exist if the document names a format.
pub(crate) fn fields_known(table: &Table, service: Option<usize>) -> &'static [&'static str] {
    match service {
        Some(_) if table.get("format").is_some() => &OF_FORMAT_2,
        Some(_) => &OF_FORMAT_1,
        None => &AT_TOP,
    }
}

/// Whether only format 2 has a field of this name.
pub(crate) fn is_of_format_2(field: &str) -> bool {
    OF_FORMAT_2.iter().any(|it| *it == field) && !OF_FORMAT_1.iter().any(|it| *it == field)
}

/// Returns what a field may have.
pub(crate) fn wanted_in(field: &str) -> &'static str {
    match field {
        "format" => "the number 2",
        "slots" => "a number from 1 to 1008",
        "service" => "an array of at most 64 tables",
        "label" => "1 to 64 letters, digits, `.`, `_` and `-`, and not `rs`,",
        "class" => "\"block\", \"character\", \"network\" or \"server\"",
        "unit" => "a number from 0 to 255",
        "period" | "startup" => "a number from 0 to 1000000",
        "limit" => "a number from 0 to 1000",
        "forget" => "a number from 0 to 1000000000",
        _ => "an array of at most 64 names",
    }
}

/// Whether a service must have a field: a server needs no unit.
pub(crate) fn is_needed(fields: &Table, field: &str) -> bool {
    match field {
        "label" | "class" => true,
        "unit" => !is_server(fields),
        _ => false,
    }
}

/// Whether a field of a service, or of the top, is missing or has what it may have.
pub(crate) fn is_valid(fields: &Table, field: &str) -> bool {
    let Some(value) = fields.get(field) else {
        return true;
    };
    match field {
        "format" => is_number(value, 2, 2),
        "slots" => is_number(value, 1, 1008),
        "service" => is_short_array(value),
        "label" => is_label(value),
        "class" => is_class(value),
        "unit" => !is_server(fields) && is_number(value, 0, 255),
        "period" | "startup" => is_number(value, 0, 1000000),
        "limit" => is_number(value, 0, 1000),
        "forget" => is_number(value, 0, 1000000000),
        _ => are_names(value),
    }
}

/// Whether the class is that of a server.
pub(crate) fn is_server(fields: &Table) -> bool {
    text_in(fields, "class") == Some("server")
}

/// Whether the class is that of a network service, whose units are ports.
pub(crate) fn is_network(fields: &Table) -> bool {
    text_in(fields, "class") == Some("network")
}

// Whether a value is a number from `low` to `high`.
fn is_number(value: &Value, low: i64, high: i64) -> bool {
    match value.as_integer() {
        Some(number) => low <= number && number <= high,
        None => false,
    }
}

fn is_short_array(value: &Value) -> bool {
    match value.as_array() {
        Some(items) => items.len() <= MOST,
        None => false,
    }
}

// Whether a value is a label for a service.
fn is_label(value: &Value) -> bool {
    match value.as_str() {
        Some(label) => label != "rs" && Name::read(label.as_bytes()).is_ok(),
        None => false,
    }
}

fn is_class(value: &Value) -> bool {
    match value.as_str() {
        Some(class) => CLASSES.iter().any(|it| *it == class),
        None => false,
    }
}

// Whether a value is an array of few enough names.
fn are_names(value: &Value) -> bool {
    match value.as_array() {
        Some(items) => items.len() <= MOST && items.iter().all(is_name),
        None => false,
    }
}

fn is_name(value: &Value) -> bool {
    match value.as_str() {
        Some(name) => Name::read(name.as_bytes()).is_ok(),
        None => false,
    }
}
