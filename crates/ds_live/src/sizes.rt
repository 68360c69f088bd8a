//! The sizes of a run.

ghost use Rattle.std.specs.Prelude.{◌≡◌, ◌+◌, IsTrue};
ghost use Rattle.ds_live.specs.Sizes.{are_fit};

/// The number of workers, and of the turns that each takes.
#[derive(Clone, Copy, PartialEq, Eq)]
pub struct Sizes {
    /// The number of publishers, 1 to 8.
    pub publishers: u32,
    /// The number of subscribers, 1 to 8.
    pub subscribers: u32,
    /// The number of turns of each worker, 1 to 1000.
    pub changes: u32,
}

impl Sizes {
    // Returns whether each size is in its range.
    pub(crate) fn are_fit(self) -> bool
        ensures { result ≡ are_fit self }
    {
        1 <= self.publishers
            && self.publishers <= 8
            && 1 <= self.subscribers
            && self.subscribers <= 8
            && 1 <= self.changes
            && self.changes <= 1000
    }

    // Returns the number of workers. The last one exchanges.
    pub(crate) fn workers(self) -> u32
        requires { IsTrue (are_fit self) }
        ensures { result ≡ self.publishers + self.subscribers + 1 }
    {
        self.publishers + self.subscribers + 1
    }
}
