//! The next question.

ghost use Rattle.std.specs.Prelude.{◌≡◌, IfOk, IfErr, OnOk, OnErr};
ghost use Rattle.c_bridge.specs.Asking.{AsksNext, IsAskFault, StartsReading, having_prepared};

use crate::bridge::{StoreBridge, UnderRead, held_with_dead, is_asking};
use crate::fault::BridgeFault;
use ds_entry::Items;
use ds_store::Store;
use fleet_bridge::{Due, Question};
use std::alloc::Global;

impl StoreBridge {
    // Prepares a question: a refill replaces the outbox by all that is held, and a compaction's snapshot is all that is held.
    fn prepare(
        &mut self,
        alloc: Global,
        store: &Store,
        question: Question,
    ) -> Result<(), BridgeFault>
        ensures prepared { OnOk result (self.new ≡ having_prepared store.now self.old question) }
        ensures refused { IfErr result (λ fault. fault ≡ BridgeFault.NoRoom) }
        ensures same { OnErr result (self.new ≡ self.old) }
    {
        match question {
            Question::Refill => {
                let Ok(all) = held_with_dead(alloc, store, &self.dead) else {
                    return Err(BridgeFault::NoRoom);
                };
                self.decisions.must_resend = false;
                self.decisions.fold(all.len() as u64);
                self.outbox = all;
                Ok(())
            }
            Question::Compact => {
                let Ok(all) = held_with_dead(alloc, store, &self.dead) else {
                    return Err(BridgeFault::NoRoom);
                };
                self.snapshot = all;
                self.question = Question::Compact;
                Ok(())
            }
            Question::Nothing => {
                self.question = Question::Nothing;
                Ok(())
            }
            Question::Meet => {
                self.question = Question::Meet;
                Ok(())
            }
            Question::Fetch => {
                self.question = Question::Fetch;
                Ok(())
            }
            Question::Add(count) => {
                self.question = Question::Add(count);
                Ok(())
            }
        }
    }

    /// Returns the next question of the connection that asks, which is under way from now on, unless it is `Nothing` or `Refill`. After
    /// `Refill` all that is held is in the outbox: ask again.
    ///
    /// Refuses as Busy while a question is under way, then as Ungathered while the store has news, and last as NoRoom.
    pub fn ask(&mut self, alloc: Global, store: &Store, due: Due) -> Result<Question, BridgeFault>
        ensures question { IfOk result (λ question. AsksNext store.now self.old due question self.new) }
        ensures refused { IfErr result (IsAskFault store.now self.old) }
        ensures same { OnErr result (self.new ≡ self.old) }
    {
        if is_asking(self.question) {
            return Err(BridgeFault::Busy);
        }
        if store.cursor().position != self.seen {
            return Err(BridgeFault::Ungathered);
        }
        let before = self.decisions;
        let question = self.decisions.ask(due);
        match self.prepare(alloc, store, question) {
            Ok(()) => Ok(question),
            Err(_) => {
                self.decisions = before;
                Err(BridgeFault::NoRoom)
            }
        }
    }

    /// Returns the id after which the next reading begins, which is under way from now on. `None` before the server was met, while a
    /// snapshot is lacking, and while a reading is under way.
    pub fn read(&mut self, alloc: Global) -> Option<u128>
        ensures { StartsReading self.old result self.new }
    {
        if self.reading.is_some() {
            return None;
        }
        let from = self.decisions.read()?;
        self.reading = Some(UnderRead {
            history: self.decisions.met,
            from,
            last: from,
        });
        self.entries = Items::new(alloc);
        Some(from)
    }
}
