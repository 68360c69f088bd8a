//! Explains what two services of a settings text share, and may not: a label, a unit, or a published name.

use crate::faults::Faults;
use crate::field::{is_network, is_server};
use crate::given::{service_at, service_count, text_in};
use crate::settings_fault::Document;
use crate::shown::Plain;
use ds_names::NoRoom;
use toml::{Table, Value};

/// Adds what each service shares with one before it: labels, units and names.
pub(crate) fn add_shared(faults: &mut Faults, document: Document<'_>) -> Result<(), NoRoom> {
    for index in 0..service_count(document.table) {
        add_label(faults, document, index)?;
        add_unit(faults, document, index)?;
        add_names(faults, document, index)?;
    }
    Ok(())
}

// Adds a label that an earlier service has.
fn add_label(faults: &mut Faults, document: Document<'_>, index: usize) -> Result<(), NoRoom> {
    let Some(fields) = service_at(document.table, index) else {
        return Ok(());
    };
    let Some(label) = text_in(fields, "label") else {
        return Ok(());
    };
    for earlier in 0..index {
        if has_label(document.table, earlier, label) {
            let place = document.place(Some(index), "label");
            return match document.place(Some(earlier), "label").line {
                Some(line) => faults.add(
                    place,
                    format_args!("`label` is that of another service, in line {line}, too"),
                ),
                None => faults.add(
                    place,
                    format_args!("`label` is that of service {earlier}, too"),
                ),
            };
        }
    }
    Ok(())
}

fn has_label(table: &Table, index: usize, label: &str) -> bool {
    match service_at(table, index) {
        Some(fields) => text_in(fields, "label") == Some(label),
        None => false,
    }
}

// Adds a major number or a port that an earlier service has.
fn add_unit(faults: &mut Faults, document: Document<'_>, index: usize) -> Result<(), NoRoom> {
    let Some(fields) = service_at(document.table, index) else {
        return Ok(());
    };
    let Some(unit) = unit_of(fields) else {
        return Ok(());
    };
    for earlier in 0..index {
        if has_unit(document.table, earlier, unit, is_network(fields)) {
            let there = document.place(Some(earlier), "unit");
            let said = format_args!("`unit` is {unit}, as in {there}each is one driver's");
            return faults.add(document.place(Some(index), "unit"), said);
        }
    }
    Ok(())
}

// Returns the unit of a service that may have one.
fn unit_of(fields: &Table) -> Option<i64> {
    if is_server(fields) {
        return None;
    }
    match fields.get("unit") {
        Some(value) => value.as_integer(),
        None => None,
    }
}

// Whether a service has this major number, or this port of a network service.
fn has_unit(table: &Table, index: usize, unit: i64, network: bool) -> bool {
    match service_at(table, index) {
        Some(fields) => unit_of(fields) == Some(unit) && is_network(fields) == network,
        None => false,
    }
}

// Adds each name that an earlier service publishes, or the service itself before.
fn add_names(faults: &mut Faults, document: Document<'_>, index: usize) -> Result<(), NoRoom> {
    let names = names_of(document.table, index);
    for (number, value) in names.iter().enumerate() {
        let Some(name) = value.as_str() else {
            continue;
        };
        if let Some(earlier) = publisher(document.table, index, name) {
            add_published(faults, document, index, name, Some(earlier))?;
        } else if has_name(names.get(..number).unwrap_or(&[]), name) {
            add_published(faults, document, index, name, None)?;
        }
    }
    Ok(())
}

// Adds that a service publishes a name that an earlier service publishes, or the service itself before.
fn add_published(
    faults: &mut Faults,
    document: Document<'_>,
    index: usize,
    name: &str,
    earlier: Option<usize>,
) -> Result<(), NoRoom> {
    let shown = Plain(name.as_bytes());
    let place = document.place(Some(index), "publishes");
    let Some(earlier) = earlier else {
        return faults.add(place, format_args!("`publishes` has \"{shown}\" twice"));
    };
    let there = document.place(Some(earlier), "publishes");
    let said = format_args!(
        "`publishes` has \"{shown}\", as in {there}each name is published once"
    );
    faults.add(place, said)
}

// Returns the values that a service publishes.
fn names_of(table: &Table, index: usize) -> &[Value] {
    let Some(fields) = service_at(table, index) else {
        return &[];
    };
    match fields.get("publishes") {
        Some(value) => match value.as_array() {
            Some(names) => names.as_slice(),
            None => &[],
        },
        None => &[],
    }
}

// Returns the first service before this one that publishes a name.
fn publisher(table: &Table, index: usize, name: &str) -> Option<usize> {
    for earlier in 0..index {
        if has_name(names_of(table, earlier), name) {
            return Some(earlier);
        }
    }
    None
}

fn has_name(names: &[Value], name: &str) -> bool {
    names.iter().any(|it| it.as_str() == Some(name))
}
