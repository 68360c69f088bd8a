//! Lists of replies.

ghost use Rattle.std.specs.Prelude.{◌≡◌, ◌≢◌, ◌++◌, ◌∷◌, [], length, slice_get, OnOk, IfErr, OnErr, IfOk};
ghost use Rattle.std.specs.Option.{option_copied};

use ds_machine::Reply;
use ds_names::NoRoom;
use std::alloc::{AllocFailed, Global};
use std::marker::Model;

/// A store's replies, in order.
#[derive(Drop)]
pub struct Replies {
    replies: Vec<Reply>,
}

impl Model for Replies {
    ghost use Rattle.std.specs.Prelude.{List};
    ghost use Rattle.ds_machine.specs.declared.reply.Reply.{Reply};

    ghost Value = { List Reply };

    ghost view = { λ r. r.replies.items };
}

impl Replies {
    /// Returns an empty list. It takes no memory.
    pub fn new(alloc: Global) -> Replies
        ensures { result ≡ [] }
    {
        Replies {
            replies: Vec::new(alloc),
        }
    }

    /// Wraps a `Vec`, and takes no memory.
    pub(crate) fn of(replies: Vec<Reply>) -> Replies
        ensures { result ≡ replies.items }
    {
        Replies { replies }
    }

    /// Appends a reply. If memory runs out, the list is unchanged and the error hands the reply back.
    pub fn push(&mut self, reply: Reply) -> Result<(), AllocFailed<Reply>>
        ensures ok { OnOk result (self.new ≡ self.old ++ reply ∷ []) }
        ensures err { OnErr result (self.new ≡ self.old) }
        ensures back { IfErr result (λ back. back.value ≡ reply) }
    {
        self.replies.push(reply)
    }

    /// Returns the number of replies.
    pub fn len(&self) -> usize
        ensures { result ≡ length self.now }
    {
        self.replies.len()
    }

    /// Returns the reply at an index from 0; `None` past the end.
    pub fn get(&self, index: usize) -> Option<&Reply>
        ensures { option_copied result ≡ slice_get self.now index }
    {
        self.replies.get(index)
    }

    /// Returns a copy. A copy of no replies takes no memory.
    pub fn copy(&self, alloc: Global) -> Result<Replies, NoRoom>
        ensures same { IfOk result (λ copy. copy ≡ self.now) }
        ensures room { OnErr result (self.now ≢ []) }
    {
        let mut replies = Vec::new(alloc);
        for reply in &self.replies {
            replies.push(reply.copy(alloc)?)?;
        }
        Ok(Replies { replies })
    }
}
