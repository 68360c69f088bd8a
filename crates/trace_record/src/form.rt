//! The form of a recorded trace.

ghost use Rattle.std.specs.Prelude.{◌≡◌};
ghost use Rattle.trace_walk.specs.Text.{FormatHas};
ghost use Rattle.trace_record.specs.Record.{header_of};

use ds_held::Limits;
use trace_walk::{Format, Header};

/// The format of a trace, and the limits of its store. Format 1 has 64 subscriptions and 1024 keys.
#[derive(Clone, Copy, PartialEq, Eq)]
pub enum Form {
    One,
    Two(Limits),
}

impl Form {
    /// Returns the header of a trace in this form: a store of incarnation 1, whose positions begin at 0, and whose
    /// journal keeps `ring` items.
    pub(crate) fn header(self, ring: u32) -> Header
        ensures value { result ≡ header_of self ring }
        ensures limits { FormatHas result.format result.limits }
    {
        match self {
            Form::One => Header {
                format: Format::One,
                incarnation: 1,
                first: 0,
                ring,
                limits: Limits::smaller(),
            },
            Form::Two(limits) => Header {
                format: Format::Two,
                incarnation: 1,
                first: 0,
                ring,
                limits,
            },
        }
    }
}
