//! Servers that are met, and connections that end.

ghost use Rattle.std.specs.Prelude.{◌≡◌, IfErr, OnOk, OnErr};
ghost use Rattle.c_bridge.specs.State.{bridge_doubting, bridge_parted, bridge_refused, bridge_rereading};
ghost use Rattle.c_bridge.specs.Answering.{IsMeetFault, Meets};

use crate::bridge::StoreBridge;
use crate::fault::BridgeFault;
use ds_entry::Items;
use fleet_bridge::Question;
use std::alloc::Global;

impl StoreBridge {
    /// Takes the history that the server has, by its number: one that lost something has a greater one. Refuses as NotUnderWay unless
    /// that was asked for.
    pub fn met(&mut self, history: u64) -> Result<(), BridgeFault>
        ensures met { OnOk result (Meets self.old history self.new) }
        ensures refused { IfErr result (IsMeetFault self.old) }
        ensures same { OnErr result (self.new ≡ self.old) }
    {
        if !matches!(self.question, Question::Meet) {
            return Err(BridgeFault::NotUnderWay);
        }
        self.decisions.meet(history);
        self.question = Question::Nothing;
        Ok(())
    }

    /// Notes that the server refused the question under way. The outbox is unchanged, so its items are sent again.
    pub fn refused(&mut self, alloc: Global)
        ensures { self.new ≡ bridge_refused self.old }
    {
        self.question = Question::Nothing;
        self.snapshot = Items::new(alloc);
    }

    /// Notes that both connections ended, and what was under way on them.
    pub fn parted(&mut self, alloc: Global)
        ensures { self.new ≡ bridge_parted self.old }
    {
        self.decisions.part();
        self.question = Question::Nothing;
        self.snapshot = Items::new(alloc);
        self.reading = None;
        self.entries = Items::new(alloc);
    }

    /// Notes that another bridge holds something else: all that is held is sent once more.
    pub fn differs(&mut self)
        ensures { self.new ≡ bridge_doubting self.old }
    {
        self.decisions.doubt();
    }

    /// Begins to read everything once more, since there is memory again.
    pub fn reread(&mut self)
        ensures { self.new ≡ bridge_rereading self.old }
    {
        self.decisions.reread();
    }
}
