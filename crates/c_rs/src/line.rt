//! The line of a fault in a settings text.

ghost use Rattle.std.specs.Prelude.{◌≡◌, ◌≤◌, length, IfSome};
ghost use Rattle.toml.specs.Errors.{IsWithin};
ghost use Rattle.c_rs.specs.Line.{IsFaultLine, IsTomlLine, line_at};

use rs_settings::{SettingsCause, SettingsFault};
use std::alloc::Global;

/// Returns the line, from 1, where the text can't be read as TOML; 0 for another fault, or if memory to read the text again runs out.
pub(crate) fn fault_line(alloc: Global, text: &[u8], fault: SettingsFault) -> u64
    ensures { IsFaultLine text.now fault.cause result }
{
    match fault.cause {
        SettingsCause::BadToml => toml_line(alloc, text),
        _ => 0,
    }
}

// Returns the line at which a text isn't TOML.
fn toml_line(alloc: Global, text: &[u8]) -> u64
    ensures { IsTomlLine text.now result }
{
    let Ok(document) = std::str::from_utf8(text) else {
        return 0;
    };
    match toml::table_from_str(alloc, document) {
        Ok(_) => 0,
        Err(error) => match error_place(text, &error) {
            Some(place) => line_at(text, place),
            None => 0,
        },
    }
}

// Returns the place of an error in the text, or `None` if memory ran out.
fn error_place(text: &[u8], error: &toml::de::Error) -> Option<usize>
    requires { IsWithin text.now error.now }
    ensures { IfSome result (λ place. place ≤ length text.now) }
{
    match error.span() {
        Some(span) => Some(span.start),
        None => None,
    }
}

// Returns the line of the byte at a place, from 1.
fn line_at(text: &[u8], place: usize) -> u64
    requires { place ≤ length text.now }
    ensures { result ≡ line_at text.now place }
{
    let before = &text[..place];
    let mut line = 1;
    for byte in before {
        if *byte == b'\n' {
            line += 1;
        }
    }
    line
}
