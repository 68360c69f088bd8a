//! The store's replies to RS's actions.

ghost use Rattle.std.specs.Prelude.{◌≡◌, length, slice_get};
ghost use Rattle.std.specs.Option.{option_copied};

use ds_machine::Reply;
use std::marker::Model;

/// The store's reply to each of a list of actions, in order: `None` for an action that isn't a command to the store.
#[derive(Drop)]
pub struct Replies {
    replies: Vec<Option<Reply>>,
}

impl Model for Replies {
    ghost use Rattle.std.specs.Prelude.{List, Option};
    ghost use Rattle.ds_machine.specs.declared.reply.Reply.{Reply};

    ghost Value = { List (Option Reply) };

    ghost view = { λ r. r.replies.items };
}

impl Replies {
    /// Takes over the replies of a `Vec`. It takes no memory.
    pub(crate) fn of(replies: Vec<Option<Reply>>) -> Replies
        ensures { result ≡ replies.items }
    {
        Replies { replies }
    }

    /// Returns all of the replies.
    pub fn as_slice(&self) -> &[Option<Reply>]
        ensures { result.now ≡ self.now }
    {
        &self.replies
    }

    /// Returns the number of actions that they answer.
    pub fn len(&self) -> usize
        ensures { result ≡ length self.now }
    {
        self.replies.len()
    }

    /// Returns the store's reply to the action at an index from 0; `None` past the end.
    pub fn get(&self, index: usize) -> Option<&Option<Reply>>
        ensures { option_copied result ≡ slice_get self.now index }
    {
        self.replies.get(index)
    }
}
