//! Valid settings as a line of a script.

use crate::settings_lines::class_word;
use crate::shown::Plain;
use ds_names::NoRoom;
use rs_settings::{Names, Service, Settings};
use std::alloc::Global;

/// The number of slots without a field for it.
const SLOTS: u32 = 64;

/// Settings as a line of a script.
#[derive(Drop)]
pub struct ScriptLine {
    /// The line without its newline.
    pub text: String,
    /// The number of slots that it leaves out: a line has the services or the slots, not both.
    pub slots: Option<u32>,
    /// Whether it leaves out fields of format 2: a line is of format 1.
    pub is_short: bool,
}

/// Returns a script's line for settings.
///
/// NoRoom: out of memory.
pub fn script_line(alloc: Global, settings: &Settings) -> Result<ScriptLine, NoRoom> {
    let slots = settings.slots();
    let mut line = ScriptLine {
        text: String::from_str(alloc, "settings ")?,
        slots: (slots != SLOTS).then_some(slots),
        is_short: is_of_format_2(settings),
    };
    if settings.services().len() > 0 {
        push_services(&mut line.text, settings)?;
        return Ok(line);
    }
    if line.slots.take().is_some() {
        write!(line.text, "slots = {slots}")?;
    }
    Ok(line)
}

// Whether a service has a value that only format 2 can give it.
fn is_of_format_2(settings: &Settings) -> bool {
    let services = settings.services();
    (0..services.len()).any(|index| match services.get(index) {
        Some(service) => has_format_2(service),
        None => false,
    })
}

fn has_format_2(service: &Service) -> bool {
    let has_lists = service.complains.is_some() || service.connects.is_some();
    has_lists || service.forget > 0 || service.startup > 0
}

fn push_services(line: &mut String, settings: &Settings) -> Result<(), NoRoom> {
    let services = settings.services();
    line.push_str("service = [")?;
    for index in 0..services.len() {
        if let Some(service) = services.get(index) {
            line.push_str(if index == 0 { "{" } else { ", {" })?;
            push_service(line, service)?;
            line.push_str("}")?;
        }
    }
    Ok(line.push_str("]")?)
}

// Appends the fields of a service that format 1 has, without those that have its default.
fn push_service(line: &mut String, service: &Service) -> Result<(), NoRoom> {
    let label = Plain(service.label.bytes());
    let class = class_word(service.class);
    write!(line, "label = \"{label}\", class = \"{class}\"")?;
    if let Some(unit) = service.unit {
        write!(line, ", unit = {unit}")?;
    }
    push_unless_zero(line, "period", service.period)?;
    push_unless_zero(line, "limit", service.limit)?;
    push_names(line, "publishes", &service.publishes)
}

fn push_unless_zero(line: &mut String, field: &str, number: u32) -> Result<(), NoRoom> {
    if number != 0 {
        write!(line, ", {field} = {number}")?;
    }
    Ok(())
}

// Appends a list of names, unless it is empty.
fn push_names(line: &mut String, field: &str, names: &Names) -> Result<(), NoRoom> {
    if names.len() == 0 {
        return Ok(());
    }
    write!(line, ", {field} = [")?;
    for index in 0..names.len() {
        if let Some(name) = names.get(index) {
            let comma = if index == 0 { "" } else { ", " };
            let shown = Plain(name.bytes());
            write!(line, "{comma}\"{shown}\"")?;
        }
    }
    Ok(line.push_str("]")?)
}
