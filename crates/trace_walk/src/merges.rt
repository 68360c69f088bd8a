//! Merges of tombstones, as entries of a trace.

ghost use Rattle.std.specs.Prelude.{◌≡◌, ◌+◌, ◌<◌, ◌++◌, OnOk};
ghost use Rattle.trace_walk.specs.Text.{entry_text};
ghost use Rattle.trace_walk.specs.Merging.{told_merge, taking_entry, IsEmpty};

use crate::writing::{append_marked, append_merge};
use ds_entry::Item;
use ds_held::Limits;
use ds_machine::Reply;
use ds_names::NoRoom;
use script_answers::{Wording, append_reply};
use std::alloc::Global;

/// Merges of tombstones, as the text of entries, and their count. A sweep leaves at most 4096 tombstones.
#[derive(Drop)]
pub struct Merges {
    pub(crate) text: Vec<u8>,
    pub(crate) count: u8,
}

impl Merges {
    /// Returns no entries.
    pub(crate) fn new(alloc: Global) -> Merges
        ensures { IsEmpty result }
    {
        Merges {
            text: Vec::new(alloc),
            count: 0,
        }
    }

    /// Adds the entry of a pass that merges the items, all of which took effect and owe this mask.
    pub(crate) fn add(
        &mut self,
        alloc: Global,
        pass: u64,
        limits: Limits,
        items: &[Item],
        owed: u128,
    ) -> Result<(), NoRoom>
        requires { self.old.count < 255 }
        ensures text { OnOk result (self.new.text.items ≡ self.old.text.items ++ entry_text limits (taking_entry pass items.now owed)) }
        ensures count { OnOk result (self.new.count ≡ self.old.count + 1) }
    {
        let reply = Reply::Merged {
            done: items.len(),
            taken: items.len(),
            stale: 0,
            owed,
        };
        self.add_entry(alloc, pass, limits, items, &reply)
    }

    // Adds the entry of a pass that merges the items, with this reply.
    fn add_entry(
        &mut self,
        alloc: Global,
        pass: u64,
        limits: Limits,
        items: &[Item],
        reply: &Reply,
    ) -> Result<(), NoRoom>
        requires { self.old.count < 255 }
        ensures text { OnOk result (self.new.text.items ≡ self.old.text.items ++ entry_text limits (told_merge pass items.now reply.now)) }
        ensures count { OnOk result (self.new.count ≡ self.old.count + 1) }
    {
        let mut lines = Vec::new(alloc);
        append_reply(&mut lines, Wording::AsMerge, reply, limits)?;
        append_merge(&mut self.text, pass, items)?;
        append_marked(&mut self.text, lines.as_slice())?;
        self.count += 1;
        Ok(())
    }
}
