//! The lines of a message's reply.

ghost use Rattle.std.specs.Prelude.{◌≡◌, ◌++◌, OnOk, OnErr};
ghost use Rattle.script_answers.specs.Reply.{reply_lines};

use crate::reply::append_reply;
use crate::wording::Wording;
use ds_held::Limits;
use ds_names::NoRoom;
use ds_replica::Message;
use std::alloc::Global;

/// Appends the lines of the reply that a message keeps. If memory runs out, for the lines or for unpacking its items,
/// the buffer is unchanged.
pub fn append_message(
    alloc: Global,
    buffer: &mut Vec<u8>,
    wording: Wording,
    message: &Message,
    limits: Limits,
) -> Result<(), NoRoom>
    ensures written { OnOk result (buffer.new.items ≡ buffer.old.items ++ reply_lines wording message.now limits) }
    ensures unchanged { OnErr result (buffer.new.items ≡ buffer.old.items) }
{
    match message.reply() {
        Some(reply) => append_reply(buffer, wording, reply, limits),
        None => append_reply(buffer, wording, &message.copy(alloc)?, limits),
    }
}
