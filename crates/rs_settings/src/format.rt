//! Formats of settings.

ghost use Rattle.std.specs.Prelude.{◌≡◌, ◌≤◌};
ghost use Rattle.rs_settings.specs.Service.{usual_forget, usual_limit};

/// The format of a settings text. The second has four more fields of a service, and other defaults.
#[derive(Clone, Copy, PartialEq, Eq)]
pub(crate) enum Format {
    First,
    Second,
}

impl Format {
    /// Returns the limit of a service that has no such field.
    pub fn usual_limit(self) -> u32
        ensures value { result ≡ usual_limit self }
        ensures limit { result ≤ 1000 }
    {
        match self {
            Format::First => 0,
            Format::Second => 5,
        }
    }

    /// Returns after how many ticks failures are forgotten, for a service that has no such field.
    pub fn usual_forget(self) -> u32
        ensures value { result ≡ usual_forget self }
        ensures limit { result ≤ 1000000000 }
    {
        match self {
            Format::First => 0,
            Format::Second => 6000,
        }
    }
}
