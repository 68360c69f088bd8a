//! Why a settings text is refused.

ghost use Rattle.std.specs.Prelude.{◌≡◌};
ghost use Rattle.rs_settings.specs.Fault.{at_top, at_service};

use thiserror::Error;

/// Why a settings text is refused, in the order of judgement.
///
/// BadToml, and then UnknownField and OutOfRange without an index, are judged for the whole text. UnknownField, Missing
/// and OutOfRange with an index are judged for each service, in order. TwoLabels, TwoUnits and SharedName are judged
/// for all services together. NoRoom comes last. Exception: memory may run out while the TOML is read, before any cause
/// is judged.
#[derive(Clone, Copy, Debug, PartialEq, Eq, Error)]
pub enum SettingsCause {
    /// The text isn't a TOML document in UTF-8.
    #[error("no TOML document")]
    BadToml,
    /// A field's name isn't known.
    #[error("an unknown field")]
    UnknownField,
    /// A service lacks its label, class or unit.
    #[error("a field is missing")]
    Missing,
    /// A value has another type, or is out of its range.
    #[error("a value out of its range")]
    OutOfRange,
    /// Two services have the same label.
    #[error("a label of two services")]
    TwoLabels,
    /// Two services have the same major number, or the same port.
    #[error("a unit of two services")]
    TwoUnits,
    /// A name is published by two services, or twice by one.
    #[error("a name published twice")]
    SharedName,
    /// Memory ran out.
    #[error("out of memory")]
    NoRoom,
}

/// The first fault of a settings text.
#[derive(Clone, Copy, Debug, PartialEq, Eq, Error)]
#[error("{cause}")]
pub struct SettingsFault {
    pub cause: SettingsCause,
    /// The index of the service with the fault, from 0 in the order of the text. A fault between two services has the
    /// index of the second one.
    pub index: Option<usize>,
}

impl SettingsFault {
    // Returns a fault of the whole text.
    pub(crate) fn at_top(cause: SettingsCause) -> SettingsFault
        ensures { result ≡ at_top cause }
    {
        SettingsFault { cause, index: None }
    }

    // Returns a fault of the service with this index.
    pub(crate) fn at_service(cause: SettingsCause, index: usize) -> SettingsFault
        ensures { result ≡ at_service cause index }
    {
        SettingsFault {
            cause,
            index: Some(index),
        }
    }
}
