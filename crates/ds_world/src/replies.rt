//! Which commands get replies with items, and how these replies are kept as messages.

ghost use Rattle.std.specs.Prelude.{◌≡◌, ◌<◌, ◌++◌, ◌∷◌, [], None, Some, is_some, length, vec_capacity, IfSome, IfNone};
ghost use Rattle.ds_replica.specs.Lent.{items_lent};
ghost use Rattle.ds_replica.specs.Happens.{gives_items, items_given};
ghost use Rattle.ds_world.specs.World.{kept_items};

use ds_machine::{Command, Reply};
use ds_replica::{Lent, Message};
use std::alloc::Global;

// Returns whether the reply to the command is kept as a message.
pub(crate) fn gives_items(command: &Command) -> bool
    ensures { result ≡ gives_items command.now }
{
    match command {
        Command::Check { .. }
        | Command::Since { .. }
        | Command::Snapshot { .. }
        | Command::Page { .. } => true,
        Command::Publish { .. }
        | Command::Delete { .. }
        | Command::Sweep { .. }
        | Command::Retrieve { .. }
        | Command::NameOf { .. }
        | Command::Subscribe { .. }
        | Command::Merge { .. } => false,
    }
}

// Returns whether a reply has items.
pub(crate) fn has_items(reply: &Reply) -> bool
    ensures { result ≡ is_some (items_given reply.now) }
{
    matches!(
        reply,
        Reply::Checked { .. } | Reply::Journaled(_) | Reply::Snapped(_) | Reply::Paged(_)
    )
}

// Returns the items of the message with this number, or `None` if there is no such message.
pub(crate) fn items_at(messages: &[Message], number: usize) -> Option<Lent<'_>>
    ensures some { IfSome result (λ items. kept_items messages.now number ≡ Some (items_lent items)) }
    ensures none { IfNone result (kept_items messages.now number ≡ None) }
{
    messages.get(number)?.items()
}

// Keeps a reply as one more message. The message before it, which was reported already, is packed; if that runs out of
// memory, it stays unpacked. Not inlined: a test has to see where memory was taken.
#[inline(never)]
pub(crate) fn keep(alloc: Global, messages: &mut Vec<Message>, reply: Reply)
    requires { length messages.old.items < vec_capacity messages.old }
    ensures { messages.new.items ≡ messages.old.items ++ reply ∷ [] }
{
    let count = messages.len();
    if count > 0 {
        messages[count - 1].pack(alloc);
    }
    messages.push_reserved(Message::of(reply));
}
