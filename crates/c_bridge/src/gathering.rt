//! The store's own changes, which its bridge gathers from the journal.

ghost use Rattle.std.specs.Prelude.{◌≡◌, false, Err, IfErr, OnOk, OnErr};
ghost use Rattle.ds_content.specs.Stands.{ContentStands, InEachState};
ghost use Rattle.c_bridge.specs.State.{bridge_folded, is_asking};
ghost use Rattle.c_bridge.specs.Gathering.{Gathers, IsFoldFault, IsGatherFault, SettlesNews, is_ahead, is_behind};

use crate::bridge::{StoreBridge, held_with_dead, is_asking};
use crate::fault::BridgeFault;
use ds_feed::Since;
use ds_machine::Refusal;
use ds_names::NoRoom;
use ds_store::Store;
use fleet_store::news_since;
use std::alloc::Global;

// Returns whether the journal refused as Behind.
fn is_behind(refusal: &Refusal) -> bool
    ensures { result ≡ is_behind refusal.now }
{
    matches!(refusal, Refusal::Behind)
}

// Returns whether the journal refused as Ahead.
fn is_ahead(refusal: &Refusal) -> bool
    ensures { result ≡ is_ahead refusal.now }
{
    matches!(refusal, Refusal::Ahead)
}

impl StoreBridge {
    // Puts all that is held into the outbox, in place of what was there, and passes over the journal. Refuses as Busy, then as NoRoom.
    fn fold(&mut self, alloc: Global, store: &Store) -> Result<(), BridgeFault>
        ensures folded { OnOk result (self.new ≡ bridge_folded store.now self.old) }
        ensures idle { OnOk result (is_asking self.old.question ≡ false) }
        ensures refused { IfErr result (IsFoldFault self.old) }
        ensures same { OnErr result (self.new ≡ self.old) }
    {
        if is_asking(self.question) {
            return Err(BridgeFault::Busy);
        }
        let Ok(all) = held_with_dead(alloc, store, &self.dead) else {
            return Err(BridgeFault::NoRoom);
        };
        self.decisions.fold(all.len() as u64);
        self.outbox = all;
        self.seen = store.cursor().position;
        Ok(())
    }

    // Gathers all that is held if the journal lacks some items; fails for another refusal of the journal.
    fn gather_all(
        &mut self,
        alloc: Global,
        store: &Store,
        refusal: Refusal,
    ) -> Result<(), BridgeFault>
        ensures { SettlesNews store.now self.old (Err refusal) result self.new }
    {
        if is_behind(&refusal) {
            return match self.fold(alloc, store) {
                Ok(()) => Ok(()),
                Err(fault) => Err(fault),
            };
        }
        if is_ahead(&refusal) {
            return Err(BridgeFault::Ahead);
        }
        Err(BridgeFault::NoRoom)
    }

    // Gathers what the journal returned, or all that is held if the journal lacks some items.
    fn settle(
        &mut self,
        alloc: Global,
        store: &Store,
        news: Result<Since, Refusal>,
    ) -> Result<(), BridgeFault>
        ensures { SettlesNews store.now self.old news result self.new }
    {
        match news {
            Ok(since) => {
                let Ok(()) = self.outbox.append_copies(alloc, &since.items) else {
                    return Err(BridgeFault::NoRoom);
                };
                self.decisions.outbox = self.outbox.len() as u64;
                self.seen = since.cursor.position;
                Ok(())
            }
            Err(refusal) => self.gather_all(alloc, store, refusal),
        }
    }

    /// Gathers items that took effect in the store since the last call, at most 256: they are appended to the outbox. If the journal no
    /// longer has them, all that is held replaces the outbox.
    ///
    /// Refuses as Ahead a store whose position is less than what was gathered, then as Busy if the outbox would be replaced while a
    /// question is under way, and last as NoRoom.
    pub fn gather(&mut self, alloc: Global, store: &mut Store) -> Result<(), BridgeFault>
        ensures gathered { OnOk result (InEachState store.old (λ s. Gathers s store.new self.old self.new)) }
        ensures refused { IfErr result (λ fault. InEachState store.old (λ s. IsGatherFault s.feed self.old fault)) }
        ensures same { OnErr result (self.new ≡ self.old) }
        ensures store { InEachState store.old (ContentStands store.new) }
    {
        let news = news_since(store, self.seen);
        self.settle(alloc, store, news)
    }
}
