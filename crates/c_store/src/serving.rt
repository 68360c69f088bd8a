//! Events of RS, whose actions reach the session's store.

ghost use Rattle.std.specs.Prelude.{◌≡◌};
ghost use Rattle.rs_store.specs.Serving.{EventTurn};

use crate::session::Session;
use rs_core::Event;
use rs_store::RsReply;

impl Session {
    /// Sends RS an event at a tick, and its actions, label changes and sweeps, to the session's store. The last answer is unchanged.
    pub fn serve(&mut self, event: Event, tick: u64) -> RsReply
        ensures served { EventTurn event tick self.old.node.services self.old.node.store result self.new.node.services self.new.node.store }
        ensures kept { self.new.last ≡ self.old.last }
    {
        self.node.tell(event, tick)
    }
}
