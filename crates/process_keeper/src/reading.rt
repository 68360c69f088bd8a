//! What callers read of a keeper.

ghost use Rattle.std.specs.Prelude.{◌≡◌, length, nat_lt};
ghost use Rattle.process_keeper.specs.Order.{AcceptsAt};

use crate::input::Input;
use crate::keeper::Keeper;

impl Keeper {
    /// Returns how many labels there are.
    pub fn len(&self) -> usize
        ensures { result ≡ length self.now.labels.items }
    {
        self.labels.len()
    }

    /// Returns whether a label would accept an input. There is no label past the last one.
    pub fn accepts(&self, label: usize, input: Input) -> bool
        ensures { AcceptsAt self.now.labels.items label input result }
    {
        if label >= self.len() {
            return false;
        }
        if !self.labels[label].accepts(input) {
            return false;
        }
        true
    }

    /// Returns whether `give` returns a generation: the file is ahead.
    pub fn may_give(&self) -> bool
        ensures { result ≡ nat_lt self.now.next self.now.file }
    {
        self.next < self.file
    }
}
