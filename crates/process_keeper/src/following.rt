//! How a label follows RS.

ghost use Rattle.std.specs.Prelude.{◌≡◌};
ghost use Rattle.process_keeper.specs.Following.{wanted, are_same_wants, halted, begun_anew, followed};

use crate::lifecycle::{FIRST_PAUSE, Lifecycle};

impl Lifecycle {
    pub(crate) fn follow(&mut self, generation: Option<u64>, deadline: u64)
        ensures { self.new ≡ followed self.old generation deadline }
    {
        if are_same_wants(self.wanted(), generation) {
            return;
        }
        self.halt(deadline);
        self.restart(generation);
    }

    fn wanted(&self) -> Option<u64>
        ensures { result ≡ wanted self.now }
    {
        match self.pending {
            Some(generation) => Some(generation),
            None => match self.instance {
                Some(instance) => match instance.deadline {
                    Some(_) => None,
                    None => Some(instance.generation),
                },
                None => None,
            },
        }
    }

    fn halt(&mut self, deadline: u64)
        ensures { self.new ≡ halted self.old deadline }
    {
        self.pending = None;
        if self.is_up() {
            self.stop(deadline);
        }
    }

    fn restart(&mut self, generation: Option<u64>)
        ensures { self.new ≡ begun_anew self.old generation }
    {
        if let Some(generation) = generation {
            self.pending = Some(generation);
            self.retry_at = 0;
            self.pause = FIRST_PAUSE;
        }
    }
}

fn are_same_wants(one: Option<u64>, other: Option<u64>) -> bool
    ensures { result ≡ are_same_wants one other }
{
    match one {
        Some(a) => match other {
            Some(b) => a == b,
            None => false,
        },
        None => other.is_none(),
    }
}
