//! Shows a settings text, or its first fault.

use dsctl_cli::{Failure, Greeting, Input, Terminals, greet};
use rs_settings::{Settings, SettingsCause, SettingsFault, read_any};
use std::io::{self, BufWriter, ErrorKind, Read};
use std::process::ExitCode;
use std::rt::Runtime;
use typed_text::{ScriptLine, explain_settings, script_line, write_settings};

/// Parses settings, and prints their services, or them as a line of a script, or their first fault. Nothing is printed
/// before the whole text is judged.
/// Greets a user at a terminal.
pub(crate) fn show_input<R: Runtime + AllocGlobal>(
    rt: &R,
    terminals: Terminals,
    mut input: Input<R>,
    as_line: bool,
) -> Result<ExitCode, Failure> {
    greet(rt, terminals, Greeting::Settings);
    let mut text = Vec::new(rt.alloc());
    if let Err(error) = input.read_to_end(&mut text) {
        return Err(match error.kind() {
            ErrorKind::OutOfMemory => Failure::NoRoom,
            _ => Failure::ReadFault(Some(error)),
        });
    }
    match as_line {
        true => show_text_as_line(rt, text.as_slice()),
        false => show_text(rt, &text),
    }
}

// Prints the services of a settings text, or its first fault.
fn show_text(rt: &(impl Runtime + AllocGlobal), text: &Vec<u8>) -> Result<ExitCode, Failure> {
    match read_any(rt.alloc(), text.as_slice()) {
        Ok(settings) => show(rt, &settings),
        Err(fault) => show_fault(rt, text.as_slice(), fault),
    }
}

// Prints a settings text as a line of a script, or its first fault.
fn show_text_as_line(rt: &(impl Runtime + AllocGlobal), text: &[u8]) -> Result<ExitCode, Failure> {
    match read_any(rt.alloc(), text) {
        Ok(settings) => show_line(rt, &settings),
        Err(fault) => show_fault(rt, text, fault),
    }
}

// Prints the services of settings.
fn show(rt: &(impl Runtime + AllocGlobal), settings: &Settings) -> Result<ExitCode, Failure> {
    let Ok(mut writer) = BufWriter::new(rt.alloc(), io::writer(rt)) else {
        return Err(Failure::NoRoom);
    };
    match write_settings(&mut writer, settings) {
        Ok(()) => Ok(ExitCode::SUCCESS),
        Err(error) => Err(Failure::WriteFault(Some(error))),
    }
}

/// The most bytes of a line.
const LONGEST: usize = 4096;

// Prints settings as a line of a script. Standard error says what isn't in it.
fn show_line(rt: &(impl Runtime + AllocGlobal), settings: &Settings) -> Result<ExitCode, Failure> {
    let Ok(line) = script_line(rt.alloc(), settings) else {
        return Err(Failure::NoRoom);
    };
    let count = line.text.len();
    if count > LONGEST {
        let _ = eprintln!(rt;
            "dsctl: the line would have {count} bytes, and a line of a script has at most 4096"
        );
        return Ok(ExitCode::from(1));
    }
    if let Err(error) = rt.println(line.text.as_str()) {
        return Err(Failure::WriteFault(Some(error)));
    }
    tell_left_out(rt, &line);
    Ok(ExitCode::SUCCESS)
}

// Writes to standard error which settings a line of a script leaves out.
fn tell_left_out(rt: &impl Runtime, line: &ScriptLine) {
    if let Some(slots) = line.slots {
        let _ = eprintln!(rt;
            "dsctl: `slots = {slots}` is left out: a line has services or slots, and then 64 slots"
        );
    }
    if line.is_short {
        let _ = eprintln!(rt;
            "dsctl: `complains`, `connects`, `forget` and `startup` are left out: a line is of format 1"
        );
    }
}

// Prints the fault of a text, and writes each of its faults to standard error. Out of memory isn't a fault of the text.
fn show_fault(
    rt: &(impl Runtime + AllocGlobal),
    text: &[u8],
    fault: SettingsFault,
) -> Result<ExitCode, Failure> {
    let Some(word) = word_of(fault.cause) else {
        return Err(Failure::NoRoom);
    };
    let printed = match fault.index {
        Some(index) => println!(rt; "bad {word} {index}"),
        None => println!(rt; "bad {word}"),
    };
    if let Err(error) = printed {
        return Err(Failure::WriteFault(Some(error)));
    }
    match explain_settings(rt, text) {
        Ok(()) => Ok(ExitCode::from(1)),
        Err(_) => Err(Failure::NoRoom),
    }
}

// Returns the word of a cause; out of memory has none.
fn word_of(cause: SettingsCause) -> Option<&'static str> {
    match cause {
        SettingsCause::BadToml => Some("toml"),
        SettingsCause::UnknownField => Some("unknownfield"),
        SettingsCause::Missing => Some("missing"),
        SettingsCause::OutOfRange => Some("outofrange"),
        SettingsCause::TwoLabels => Some("twolabels"),
        SettingsCause::TwoUnits => Some("twounits"),
        SettingsCause::SharedName => Some("sharedname"),
        SettingsCause::NoRoom => None,
    }
}
