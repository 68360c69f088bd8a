//! Which question is next.

ghost use Rattle.std.specs.Prelude.{◌≡◌, Some, None, IfSome, IfNone, true, false};
ghost use Rattle.fleet_bridge.specs.Asking.{next_question, having_asked, may_read};

use crate::bridge::Bridge;
use crate::question::{Due, Question};

impl Bridge {
    /// Returns the next question while no other is under way. Unless `Refill` or `Nothing` is returned, it is under way from now on.
    ///
    /// The server is met first, then a snapshot is fetched if one is lacking, and held items are resent once the log was read. A compaction
    /// goes before a question that only adds, since it adds, too.
    pub fn ask(&mut self, due: Due) -> Question
        ensures question { result ≡ next_question self.old due }
        ensures asked { self.new ≡ having_asked self.old result }
    {
        if !self.is_met {
            return Question::Meet;
        }
        if self.has_gap {
            return Question::Fetch;
        }
        if self.must_resend && self.is_at_end {
            return Question::Refill;
        }
        if due.compaction && self.is_at_end && !self.has_dropped {
            self.in_flight = self.outbox;
            return Question::Compact;
        }
        if self.outbox == 0 {
            return Question::Nothing;
        }
        let most = due.most.max(1);
        self.in_flight = self.outbox.min(most);
        Question::Add(self.in_flight)
    }

    /// Returns the id after which the next reading begins. `None` before the server was met, and while a snapshot is lacking.
    pub fn read(&self) -> Option<u128>
        ensures { result ≡ may_read self.now }
    {
        if !self.is_met || self.has_gap {
            return None;
        }
        Some(self.position)
    }
}
