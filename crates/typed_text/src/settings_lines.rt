//! The text of valid settings, one line a service.

use rs_settings::{Class, Service, Settings};
use std::io::{self, Write};

/// Writes a line for each service and one for all of them, and flushes the writer.
pub fn write_settings<W: Write>(writer: &mut W, settings: &Settings) -> io::Result<()> {
    let services = settings.services();
    for index in 0..services.len() {
        if let Some(service) = services.get(index) {
            write_service(writer, service)?;
        }
    }
    let count = services.len();
    let slots = settings.slots();
    writeln!(writer, "services {count} slots {slots}")?;
    writer.flush()
}

fn write_service<W: Write>(writer: &mut W, service: &Service) -> io::Result<()> {
    writer.write_all(b"service ")?;
    writer.write_all(service.label.bytes())?;
    let class = class_word(service.class);
    match service.unit {
        Some(unit) => write!(writer, " {class} {unit}")?,
        None => write!(writer, " {class} -")?,
    }
    let period = service.period;
    let limit = service.limit;
    let publishes = service.publishes.len();
    write!(
        writer,
        " period {period} limit {limit} publishes {publishes}"
    )?;
    write_extensions(writer, service)?;
    writer.write_all(b"\n")
}

// Writes the fields that extend RS, without those that are missing or 0.
fn write_extensions<W: Write>(writer: &mut W, service: &Service) -> io::Result<()> {
    if let Some(labels) = &service.complains {
        let count = labels.len();
        write!(writer, " complains {count}")?;
    }
    if let Some(labels) = &service.connects {
        let count = labels.len();
        write!(writer, " connects {count}")?;
    }
    if service.forget > 0 {
        let forget = service.forget;
        write!(writer, " forget {forget}")?;
    }
    if service.startup > 0 {
        let startup = service.startup;
        write!(writer, " startup {startup}")?;
    }
    Ok(())
}

/// Returns the word of a class.
pub(crate) fn class_word(class: Class) -> &'static str {
    match class {
        Class::Block => "block",
        Class::Character => "character",
        Class::Network => "network",
        Class::Server => "server",
    }
}
