//! Why a settings text is refused, in numbers.

ghost use Rattle.std.specs.Prelude.{◌≡◌};
ghost use Rattle.c_rs.specs.Opening.{service_number, TellsFault};

use crate::line::fault_line;
use crate::telling::cause_number;
use rs_settings::SettingsFault;
use std::alloc::Global;

/// The service number that stands for the whole text.
const WHOLE_TEXT: u32 = 4294967295;

/// Why a settings text is refused, and where, as C has it.
#[repr(C)]
#[derive(Clone, Copy)]
pub struct SettingsRefusal {
    /// The line of a text that isn't TOML, from 1; 0 if it isn't known, or for another cause.
    pub line: u64,
    /// The number of the cause.
    pub cause: u32,
    /// The service, from 0 in the order of the text; 4294967295 for the whole text.
    pub service: u32,
}

impl SettingsRefusal {
    /// Returns a fault of a settings text, in numbers.
    pub fn of(alloc: Global, text: &[u8], fault: SettingsFault) -> SettingsRefusal
        ensures { TellsFault text.now fault result }
    {
        SettingsRefusal {
            line: fault_line(alloc, text, fault),
            cause: cause_number(fault.cause),
            service: service_number(fault.index),
        }
    }
}

/// Returns the number of a service, of which there are 64 at most.
pub fn service_number(index: Option<usize>) -> u32
    ensures { result ≡ service_number index }
{
    match index {
        Some(index) if index < 64 => index as u32,
        _ => WHOLE_TEXT,
    }
}
