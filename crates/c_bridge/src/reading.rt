//! Readings of the log.

ghost use Rattle.std.specs.Prelude.{◌≡◌, IfOk, IfErr, OnOk, OnErr};
ghost use Rattle.c_bridge.specs.Reading.{Enters, FinishesReading, IsReadEntryFault, IsHearFault};

use crate::bridge::{StoreBridge, UnderRead};
use crate::fault::BridgeFault;
use crate::snapshots::read_text;
use ds_entry::Items;
use ds_store::Store;
use fleet_bridge::Reading;
use fleet_store::{Taken, take};
use std::alloc::Global;

impl StoreBridge {
    /// Takes one entry of the reading under way: its id, and its items as lines. They are kept until the reading ends.
    ///
    /// Refuses as NotUnderWay without a reading, then an id that isn't greater than the last one as BadId, then a bad text as BadLines, and
    /// last as NoRoom.
    pub fn entry(&mut self, alloc: Global, id: u128, text: &[u8]) -> Result<(), BridgeFault>
        ensures entered { OnOk result (Enters self.old id text.now self.new) }
        ensures refused { IfErr result (IsReadEntryFault self.old id text.now) }
        ensures same { OnErr result (self.new ≡ self.old) }
    {
        let Some(reading) = self.reading else {
            return Err(BridgeFault::NotUnderWay);
        };
        if id <= reading.last {
            return Err(BridgeFault::BadId);
        }
        let items = read_text(alloc, text)?;
        let Ok(()) = self.entries.append_copies(alloc, &items) else {
            return Err(BridgeFault::NoRoom);
        };
        self.reading = Some(UnderRead {
            last: id,
            ..reading
        });
        Ok(())
    }

    /// Ends the reading under way: the snapshot's last entry had the id `end` when it was answered, and `is_all` if the last entry handed
    /// over is the log's last. Returns what became of its items; `None` if the answer is ignored, since another history was met since, or
    /// the reading began elsewhere, or before the snapshot's end.
    ///
    /// Refuses as NotUnderWay without a reading, and then as Ungathered while the store has news.
    pub fn consumed(
        &mut self,
        alloc: Global,
        store: &mut Store,
        end: u128,
        is_all: bool,
    ) -> Result<Option<Taken>, BridgeFault>
        ensures consumed { IfOk result (λ taken. FinishesReading store.old self.old end is_all taken store.new self.new) }
        ensures refused { IfErr result (IsHearFault store.old self.old) }
        ensures same { OnErr result (self.new ≡ self.old) }
        ensures store { OnErr result (store.new ≡ store.old) }
    {
        let Some(reading) = self.reading else {
            return Err(BridgeFault::NotUnderWay);
        };
        if store.cursor().position != self.seen {
            return Err(BridgeFault::Ungathered);
        }
        self.reading = None;
        let counts = self.decisions.consume(Reading {
            history: reading.history,
            from: reading.from,
            end,
            last: reading.last,
            is_all,
            has_dropped: false,
        });
        let mut taken = None;
        if counts {
            let some = take(alloc, store, &mut self.dead, self.entries.as_slice());
            self.decisions.has_dropped = self.decisions.has_dropped || some.has_dropped;
            self.seen = store.cursor().position;
            taken = Some(some);
        }
        self.entries = Items::new(alloc);
        Ok(taken)
    }
}
