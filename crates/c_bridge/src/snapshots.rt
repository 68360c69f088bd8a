//! Snapshots that are taken.

ghost use Rattle.std.specs.Prelude.{◌≡◌, IfOk, IfErr, OnErr};
ghost use Rattle.c_bridge.specs.Answering.{FetchesSnapshot, IsFetchFault};
ghost use Rattle.c_values.specs.Lines.{AreLines};
ghost use Rattle.c_bridge.specs.Texts.{IsItemsFault};

use crate::bridge::StoreBridge;
use crate::fault::BridgeFault;
use c_values::read_items;
use ds_entry::Items;
use ds_names::NoRoom;
use ds_store::Store;
use fleet_bridge::Question;
use fleet_store::{Taken, take};
use std::alloc::Global;

// StartsReading a text of items.
pub(crate) fn read_text(alloc: Global, text: &[u8]) -> Result<Items, BridgeFault>
    ensures read { IfOk result (λ items. AreLines items text.now) }
    ensures refused { IfErr result (IsItemsFault text.now) }
{
    match read_items(alloc, text) {
        Ok(Some(items)) => Ok(items),
        Ok(None) => Err(BridgeFault::BadLines),
        Err(NoRoom) => Err(BridgeFault::NoRoom),
    }
}

impl StoreBridge {
    /// Takes the snapshot that was asked for, up to the entry of the id `end`: its items as lines. The store takes them, or the dead
    /// letters. The bridge compacts nothing from then on if an item was dropped.
    ///
    /// Refuses as NotUnderWay unless it was asked for, then as Ungathered while the store has news, then a bad text as BadLines, and last
    /// as NoRoom, if memory runs out before the first item is taken.
    pub fn fetched(
        &mut self,
        alloc: Global,
        store: &mut Store,
        end: u128,
        text: &[u8],
    ) -> Result<Taken, BridgeFault>
        ensures fetched { IfOk result (λ taken. FetchesSnapshot store.old self.old end text.now taken store.new self.new) }
        ensures refused { IfErr result (IsFetchFault store.old self.old text.now) }
        ensures same { OnErr result (self.new ≡ self.old) }
        ensures store { OnErr result (store.new ≡ store.old) }
    {
        if !matches!(self.question, Question::Fetch) {
            return Err(BridgeFault::NotUnderWay);
        }
        if store.cursor().position != self.seen {
            return Err(BridgeFault::Ungathered);
        }
        let items = read_text(alloc, text)?;
        let taken = take(alloc, store, &mut self.dead, items.as_slice());
        self.decisions.fetch(end, taken.has_dropped);
        self.seen = store.cursor().position;
        self.question = Question::Nothing;
        Ok(taken)
    }
}
