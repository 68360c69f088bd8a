//! Explains the faults of a settings text: each with its line, its service by its label, its field, what is there, and
//! what was expected.

use crate::faults::Faults;
use crate::field::{fields_known, is_needed, is_of_format_2, is_valid, wanted_in};
use crate::given::{Given, service_at, service_count, text_in};
use crate::kind::{TextKind, is_note};
use crate::known::{IfNear, nearest};
use crate::place::{field_line, line_at, service_line};
use crate::shared::add_shared;
use crate::shown::Plain;
use ds_names::NoRoom;
use std::fmt;
use std::rt::Runtime;
use toml::Table;

/// A settings text, and the document that it is.
#[derive(Clone, Copy)]
pub(crate) struct Document<'a> {
    pub text: &'a [u8],
    pub table: &'a Table,
}

/// Writes the faults of a settings text to standard error, each on a line of its own, in the order of the text's lines. A
/// failed write is ignored.
///
/// A text that isn't UTF-8, or isn't TOML, has that one fault. Any other fault names the line of the text, the service by
/// its label or else its index, the field, what is there, and what was expected.
///
/// NoRoom: out of memory to parse the text again, or to keep its faults. Nothing is written then.
pub fn explain_settings(rt: &(impl Runtime + AllocGlobal), text: &[u8]) -> Result<(), NoRoom> {
    let Ok(document) = std::str::from_utf8(text) else {
        let _ = eprintln!(rt; "dsctl: the text isn't UTF-8");
        return Ok(());
    };
    match toml::table_from_str(rt.alloc(), document) {
        Ok(table) => {
            let document = Document {
                text,
                table: &table,
            };
            let mut faults = Faults::new(rt.alloc());
            add_document(&mut faults, document)?;
            faults.write(rt);
            Ok(())
        }
        Err(error) => explain_text(rt, text, &error),
    }
}

// Explains a text that isn't TOML. Without a span, memory ran out.
fn explain_text(rt: &impl Runtime, text: &[u8], error: &toml::de::Error) -> Result<(), NoRoom> {
    let Some(span) = error.span() else {
        return Err(NoRoom);
    };
    let line = line_at(text, span.start);
    let message = error.message();
    match TextKind::of(text) {
        Some(kind) if kind != TextKind::Settings && begins_at(text, line) => {
            let _ = eprintln!(rt; "dsctl: line {line}: a TOML document was expected; {kind}");
        }
        _ => {
            let _ = eprintln!(rt; "dsctl: line {line}: {message}");
        }
    }
    Ok(())
}

// Whether a text has only empty lines and comments before a line.
fn begins_at(text: &[u8], line: usize) -> bool {
    text.split(|byte| *byte == b'\n')
        .take(line.saturating_sub(1))
        .all(is_note)
}

// Adds each fault of a document.
fn add_document(faults: &mut Faults, document: Document<'_>) -> Result<(), NoRoom> {
    add_unknown(faults, document, None, document.table)?;
    for field in fields_known(document.table, None) {
        add_value(faults, document, None, document.table, field)?;
    }
    for index in 0..service_count(document.table) {
        add_service(faults, document, index)?;
    }
    add_shared(faults, document)
}

// Adds each fault of a service of its own.
fn add_service(faults: &mut Faults, document: Document<'_>, index: usize) -> Result<(), NoRoom> {
    let Some(fields) = service_at(document.table, index) else {
        let place = document.place(Some(index), "service");
        return faults.add(place, "a table was expected");
    };
    add_unknown(faults, document, Some(index), fields)?;
    add_missing(faults, document, index, fields)?;
    for field in fields_known(document.table, Some(index)) {
        add_value(faults, document, Some(index), fields, field)?;
    }
    Ok(())
}

// Adds each field that a service needs and doesn't have.
fn add_missing(
    faults: &mut Faults,
    document: Document<'_>,
    index: usize,
    fields: &Table,
) -> Result<(), NoRoom> {
    for field in fields_known(document.table, Some(index)) {
        if is_needed(fields, field) && fields.get(*field).is_none() {
            let wanted = wanted_in(field);
            let said = format_args!("`{field}` is missing; {wanted} was expected");
            faults.add(document.header(index), said)?;
        }
    }
    Ok(())
}

// Adds each field with a name that no field has.
fn add_unknown(
    faults: &mut Faults,
    document: Document<'_>,
    service: Option<usize>,
    fields: &Table,
) -> Result<(), NoRoom> {
    let known = fields_known(document.table, service);
    for key in fields.keys() {
        let key = key.as_str();
        if known.iter().any(|it| *it == key) {
            continue;
        }
        let place = document.place(service, key);
        if service.is_some() && key == "format" {
            faults.add(place, "`format` belongs above the first service")?;
            continue;
        }
        if service.is_some() && is_of_format_2(key) {
            faults.add(
                place,
                format_args!("`{key}` is a field of format 2: begin with `format = 2`"),
            )?;
            continue;
        }
        let shown = Plain(key.as_bytes());
        let near = IfNear(nearest(key.as_bytes(), known));
        faults.add(place, format_args!("`{shown}` isn't a field{near}"))?;
    }
    Ok(())
}

// Adds a field that has what it may not have.
fn add_value(
    faults: &mut Faults,
    document: Document<'_>,
    service: Option<usize>,
    fields: &Table,
    field: &str,
) -> Result<(), NoRoom> {
    if is_valid(fields, field) {
        return Ok(());
    }
    let Some(value) = fields.get(field) else {
        return Ok(());
    };
    let place = document.place(service, field);
    let given = Given(value);
    if field == "unit" && text_in(fields, "class") == Some("server") {
        return faults.add(place, format_args!("`unit` is {given}; a server has none"));
    }
    let wanted = wanted_in(field);
    let near = IfNear(match (field, value.as_str()) {
        ("class", Some(class)) => nearest(class.as_bytes(), &crate::field::CLASSES),
        _ => None,
    });
    let said = format_args!("`{field}` is {given}; {wanted} was expected{near}");
    faults.add(place, said)
}

impl<'a> Document<'a> {
    /// Returns the place of a field, in a service or at the top.
    pub(crate) fn place(self, service: Option<usize>, field: &str) -> Place<'a> {
        Place {
            line: field_line(self.text, service, field.as_bytes()),
            service,
            label: self.label(service),
        }
    }

    // Returns the place of a service.
    fn header(self, index: usize) -> Place<'a> {
        Place {
            line: service_line(self.text, Some(index)),
            service: Some(index),
            label: self.label(Some(index)),
        }
    }

    // Returns the label of a service, if it has one.
    fn label(self, service: Option<usize>) -> Option<&'a str> {
        match service_at(self.table, service?) {
            Some(fields) => text_in(fields, "label"),
            None => None,
        }
    }
}

/// The line and the service of a fault, as the front of a sentence.
#[derive(Clone, Copy)]
pub(crate) struct Place<'a> {
    pub line: Option<usize>,
    service: Option<usize>,
    label: Option<&'a str>,
}

impl fmt::Display for Place<'_> {
    fn fmt<W: fmt::Write>(&self, f: &mut fmt::Formatter<W>) -> fmt::Result {
        if let Some(line) = self.line {
            write!(f, "line {line}")?;
            if self.service.is_some() {
                f.write_str(", ")?;
            }
        }
        match (self.label, self.service) {
            (Some(label), _) => {
                let label = Plain(label.as_bytes());
                write!(f, "service `{label}`: ")
            }
            (None, Some(service)) => write!(f, "service {service}: "),
            (None, None) if self.line.is_some() => f.write_str(": "),
            (None, None) => Ok(()),
        }
    }
}
