//! Generations.

ghost use Rattle.std.specs.Prelude.{◌≡◌, ◌+◌, ◌<◌, ◌≤◌, ◌⊎◌, IfSome, IsNone};
ghost use Rattle.process_keeper.specs.Order.{IsWritten, next_given};

use crate::keeper::Keeper;

const BLOCK: u64 = 64;

impl Keeper {
    /// Returns the generation of a start, and counts on. `None`: the file has to be written first.
    #[tactic(auto, using(std::proofs::lemmas::Bool::Decides::nat_tests))]
    pub fn give(&mut self) -> Option<u64>
        ensures given { IfSome result (λ g. (g ≡ self.old.next) × (g < self.old.file) × (self.new.next ≡ g + 1)) }
        ensures counts { self.new.next ≡ next_given self.old.next self.old.file }
        ensures none { IsNone result → (self.old.file ≡ self.old.next) × (self.new.next ≡ self.old.next) }
        ensures file { self.new.file ≡ self.old.file }
        ensures labels { self.new.labels.items ≡ self.old.labels.items }
    {
        if self.next == self.file {
            return None;
        }
        let generation = self.next;
        self.next = generation + 1;
        Some(generation)
    }

    /// Returns the generation to write, once the last one that the file allows was given: 64 further on. `None`: nothing is to be
    /// written, or no number is left.
    pub fn to_write(&self) -> Option<u64>
        ensures next { IfSome result (λ n. n ≡ self.now.next + 64) }
        ensures rest { IsNone result → (self.now.next < self.now.file) ⊎ (18446744073709551616 ≤ self.now.next + 64) }
    {
        if self.next < self.file {
            return None;
        }
        self.next.checked_add(BLOCK)
    }

    /// Notes that the file has this generation. Returns whether it may: not if a later one was given.
    pub fn note_written(&mut self, file: u64) -> bool
        ensures written { IsWritten self.old.next self.old.file file result self.new.file }
        ensures next { self.new.next ≡ self.old.next }
        ensures labels { self.new.labels.items ≡ self.old.labels.items }
    {
        if file < self.next {
            return false;
        }
        self.file = file;
        true
    }
}
