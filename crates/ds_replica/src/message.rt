//! Messages.

ghost use Rattle.std.specs.Prelude.{◌≡◌, ◌≢◌, [], true, is_some, IfOk, OnErr, IfSome, IfNone, None, Some};
ghost use Rattle.ds_machine.specs.Copying.{ReplyCopyTakesMemory};
ghost use Rattle.ds_replica.specs.Happens.{items_given};
ghost use Rattle.ds_replica.specs.Head.{IsHead};
ghost use Rattle.ds_replica.specs.Lent.{items_lent};

use crate::head::{Head, items_of};
use crate::lent::Lent;
use ds_entry::Items;
use ds_machine::Reply;
use ds_names::NoRoom;
use ds_packed::Packed;
use std::alloc::Global;
use std::marker::Model;

// How a message is kept.
#[derive(Drop)]
pub(crate) enum Kept {
    Whole(Reply),
    Packed(Head, Packed),
}

/// A reply of a store, kept for later deliveries.
#[derive(Drop)]
pub struct Message {
    kept: Kept,
}

impl Model for Message {
    ghost use Rattle.ds_machine.specs.declared.reply.Reply.{Reply};
    ghost use Rattle.ds_replica.specs.Kept.{reply_kept};

    ghost Value = { Reply };

    ghost view = { λ m. reply_kept m.kept };
}

impl Kept {
    ghost use Rattle.ds_replica.specs.Kept.{reply_kept};

    // Returns the reply with its items packed, or `None` if it has no items, if one of them has a text or a blob, or if
    // memory runs out.
    fn packed(alloc: Global, reply: &Reply) -> Option<Kept>
        ensures { IfSome result (λ kept. reply_kept kept ≡ reply.now) }
    {
        let head = Head::of(reply)?;
        let items = items_of(reply)?;
        let packed = Packed::of(alloc, items.as_slice())?;
        Some(Kept::Packed(head, packed))
    }
}

impl Message {
    /// Returns the message of a reply. Takes no memory.
    pub fn of(reply: Reply) -> Message
        ensures { result ≡ reply }
    {
        Message {
            kept: Kept::Whole(reply),
        }
    }

    /// Packs the items, so that they take less memory. Does nothing if one of them has a text or a blob, or if memory
    /// runs out.
    pub fn pack(&mut self, alloc: Global)
        ensures { self.new ≡ self.old }
    {
        let packed = match &self.kept {
            Kept::Whole(reply) => Kept::packed(alloc, reply),
            Kept::Packed(_, _) => None,
        };
        if let Some(packed) = packed {
            self.kept = packed;
        }
    }

    /// Returns the reply itself, or `None` if its items are packed. A reply without a list of items never is.
    #[tactic(auto, using(crate::proofs::PackLemmas::packed_has_items))]
    pub fn reply(&self) -> Option<&Reply>
        ensures some { IfSome result (λ reply. reply.now ≡ self.now) }
        ensures none { IfNone result (is_some (items_given self.now) ≡ true) }
    {
        match &self.kept {
            Kept::Whole(reply) => Some(reply),
            Kept::Packed(_, _) => None,
        }
    }

    /// Returns what the reply has besides its items, or `None` if this kind of reply has no list. Takes no memory.
    #[tactic(auto, using(crate::proofs::PackLemmas::head_of_packed))]
    pub fn head(&self) -> Option<Head>
        ensures some { IfSome result (λ head. IsHead head self.now) }
        ensures none { IfNone result (items_given self.now ≡ None) }
    {
        match &self.kept {
            Kept::Whole(reply) => Head::of(reply),
            Kept::Packed(head, _) => Some(*head),
        }
    }

    /// Returns a copy of the reply. Fails only if memory runs out; without a text, a blob or an item it takes none.
    #[tactic(auto, using(crate::proofs::PackLemmas::packed_takes_memory))]
    pub fn copy(&self, alloc: Global) -> Result<Reply, NoRoom>
        ensures same { IfOk result (λ reply. reply ≡ self.now) }
        ensures room { OnErr result (ReplyCopyTakesMemory self.now) }
    {
        match &self.kept {
            Kept::Whole(reply) => reply.copy(alloc),
            Kept::Packed(head, packed) => Ok(head.reply(unpacked(alloc, packed)?)),
        }
    }

    /// Returns the list of items, which may be empty, or `None` if this kind of reply has no list.
    pub fn items(&self) -> Option<Lent<'_>>
        ensures some { IfSome result (λ lent. items_given self.now ≡ Some (items_lent lent)) }
        ensures none { IfNone result (items_given self.now ≡ None) }
    {
        match &self.kept {
            Kept::Whole(reply) => Some(Lent::Whole(items_of(reply)?.as_slice())),
            Kept::Packed(_, packed) => Some(Lent::Packed(packed.items())),
        }
    }
}

// Returns the packed items. None take no memory.
#[tactic(auto, using(crate::proofs::PackLemmas::one_is_some))]
fn unpacked(alloc: Global, packed: &Packed) -> Result<Items, NoRoom>
    ensures same { IfOk result (λ items. items ≡ packed.now) }
    ensures room { OnErr result (packed.now ≢ []) }
{
    let mut items = Items::new(alloc);
    let mut left = packed.items();
    while let Some(item) = left.next() {
        items.push(item)?;
    }
    Ok(items)
}
