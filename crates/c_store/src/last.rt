//! The last answer of a session.

ghost use Rattle.std.specs.Prelude.{◌≡◌, ◌≢◌, [], false, drop, IfOk, OnErr};
ghost use Rattle.ds_held.specs.Held.{held_items};
ghost use Rattle.c_values.specs.Pieces.{GivesPieces};
ghost use Rattle.c_store.specs.Kept.{holds_memory, reply_holds_memory};
ghost use Rattle.c_store.specs.Called.{pieces_in, held_shown};

use c_values::{Given, give, give_items};
use ds_entry::{Items, Value};
use ds_held::Held;
use ds_machine::Reply;
use ds_names::NoRoom;
use script_answers::Wording;
use std::alloc::Global;
use std::mem::{forget, replace};

/// The last answer of a session.
#[derive(Drop)]
pub enum Last {
    /// An answer without a text, or none yet.
    Nothing,
    /// A reply of the store, and its wording in a script.
    Reply { reply: Reply, wording: Wording },
    /// Held items that are shown.
    Shown(Items),
}

// Returns whether a reply holds allocated memory.
#[inline(always)]
fn reply_holds_memory(reply: &Reply) -> bool
    ensures { result ≡ reply_holds_memory reply.now }
{
    match reply {
        Reply::Found(value) => matches!(value, Value::Str(_) | Value::Mem(_)),
        Reply::Checked { .. } | Reply::Journaled(_) | Reply::Snapped(_) | Reply::Paged(_) => true,
        Reply::Changed { .. }
        | Reply::Known
        | Reply::Swept { .. }
        | Reply::Named(_)
        | Reply::Subscribed { .. }
        | Reply::Merged { .. }
        | Reply::MergeStopped { .. }
        | Reply::Refused(_) => false,
    }
}

impl Last {
    // Returns whether the last answer holds allocated memory, for items, a text or a blob.
    #[inline(always)]
    pub(crate) fn holds_memory(&self) -> bool
        ensures { result ≡ holds_memory self.now }
    {
        match self {
            Last::Nothing => false,
            Last::Reply { reply, .. } => reply_holds_memory(reply),
            Last::Shown(_) => true,
        }
    }

    // Copies the answer's pieces of text to a buffer, from the piece at index `first` on.
    pub(crate) fn give(&self, alloc: Global, first: usize, room: &mut [u8]) -> Given
        ensures { GivesPieces (drop first (pieces_in self.now)) room.old result room.new }
    {
        match self {
            Last::Nothing => Given::nothing(),
            Last::Reply { reply, .. } => give(alloc, reply, first, room),
            Last::Shown(items) => give_items(alloc, items.as_slice(), first, room),
        }
    }
}

/// Replaces a last answer, which holds no memory and needs no drop.
#[inline(always)]
pub(crate) fn overwrite(kept: &mut Last, last: Last)
    requires { holds_memory kept.old ≡ false }
    ensures { kept.new ≡ last }
{
    forget(replace(kept, last));
}

/// Copies everything held, or only the puts. It takes memory if anything is held, and fails only if that runs out.
#[tactic(auto, using(crate::proofs::HeldLemmas::none_shown, crate::proofs::HeldLemmas::some_held))]
pub(crate) fn held_shown(alloc: Global, held: &Held, all: bool) -> Result<Items, NoRoom>
    ensures items { IfOk result (λ items. items ≡ held_shown all (held_items held.now)) }
    ensures room { OnErr result (held_items held.now ≢ []) }
{
    if held.item_at(0).is_none() {
        return Ok(Items::new(alloc));
    }
    let mut items = held.all(alloc)?;
    if !all {
        items.retain_puts();
    }
    Ok(items)
}
