//! How many lines were answered.

ghost use Rattle.std.specs.Prelude.{◌≤◌};

/// How many lines were answered, and how many of them aren't commands.
#[derive(Drop)]
pub(crate) struct Tally {
    pub lines: u64,
    pub bad: u64,
    pub ghost few: { bad ≤ lines },
}
