//! Items that the server added.

ghost use Rattle.std.specs.Prelude.{◌≡◌, IfOk, IfErr, OnErr};
ghost use Rattle.c_bridge.specs.State.{is_adding};
ghost use Rattle.c_bridge.specs.Answering.{IsAddFault, IsAcknowledged};

use crate::bridge::StoreBridge;
use crate::fault::BridgeFault;
use ds_entry::Items;
use fleet_bridge::Question;
use std::alloc::Global;

// Returns whether the question adds items.
fn is_adding(question: Question) -> bool
    ensures { result ≡ is_adding question }
{
    matches!(question, Question::Add(_) | Question::Compact)
}

impl StoreBridge {
    /// Takes an acknowledgement of the question under way, for which enough replicas were waited: all its items were added, and it may have
    /// compacted. They leave the outbox; returns their number.
    ///
    /// Refuses as NotUnderWay unless the question adds, then as NoRoom, which it does only if some items of the outbox weren't in flight.
    pub fn added(&mut self, alloc: Global) -> Result<u64, BridgeFault>
        ensures acknowledged { IfOk result (λ count. IsAcknowledged self.old count self.new) }
        ensures refused { IfErr result (IsAddFault self.old) }
        ensures same { OnErr result (self.new ≡ self.old) }
    {
        if !is_adding(self.question) {
            return Err(BridgeFault::NotUnderWay);
        }
        let count = self.decisions.in_flight;
        let rest = if count as usize >= self.outbox.len() {
            Items::new(alloc)
        } else {
            match self.outbox.split_off(count as usize) {
                Ok(rest) => rest,
                Err(_) => return Err(BridgeFault::NoRoom),
            }
        };
        self.decisions.acknowledge();
        self.outbox = rest;
        self.snapshot = Items::new(alloc);
        self.question = Question::Nothing;
        Ok(count)
    }
}
