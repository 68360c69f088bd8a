//! The lines of a reply.

ghost use Rattle.std.specs.Prelude.{◌≡◌, ◌++◌, OnOk, OnErr};
ghost use Rattle.std.specs.Option.{option_copied};
ghost use Rattle.rs_answers.specs.Served.{all_acted_lines, not_allowed_lines, reply_lines_if, served_lines, start_fault_line};
ghost use Rattle.script_answers.specs.Appending.{AppendsSome};

use ds_held::Limits;
use ds_machine::{Refusal, Reply};
use ds_names::NoRoom;
use rs_core::{Actions, NewFault};
use rs_settings::SettingsCause;
use rs_store::{Replies, RsReply};
use script_answers::{
    Wording, append_action, append_action_count, append_exists, append_reply, append_rs_fault,
    append_settings, append_settings_fault,
};

/// Appends the lines of a reply, as in a script: a line for each action, followed by the store's reply to it, and then
/// the number of actions. `wording` is that of the reply to a client's Merge. If memory runs out, the buffer is
/// unchanged.
pub fn append_served(buffer: &mut Vec<u8>, wording: Wording, reply: &RsReply) -> Result<(), NoRoom>
    ensures written { OnOk result (buffer.new.items ≡ buffer.old.items ++ served_lines wording reply.now) }
    ensures unchanged { OnErr result (buffer.new.items ≡ buffer.old.items) }
{
    match reply {
        RsReply::Replied(reply) => append_reply(buffer, wording, reply, Limits::larger()),
        RsReply::NotAllowed => append_not_allowed(buffer),
        RsReply::Begun { services, slots } => append_settings(buffer, *services, *slots),
        RsReply::Exists => append_exists(buffer),
        RsReply::NotBegun(fault) => append_start_fault(buffer, *fault),
        RsReply::Acted {
            actions,
            replies,
            ..
        } => append_acted(buffer, actions, replies),
        RsReply::Refused(fault) => append_rs_fault(buffer, *fault),
    }
}

// Appends the refusal of a client's command in RS's name, in the words of the store's refusal.
fn append_not_allowed(buffer: &mut Vec<u8>) -> Result<(), NoRoom>
    ensures written { OnOk result (buffer.new.items ≡ buffer.old.items ++ not_allowed_lines) }
    ensures unchanged { OnErr result (buffer.new.items ≡ buffer.old.items) }
{
    let reply = Reply::Refused(Refusal::NotAllowed);
    append_reply(buffer, Wording::AsMerge, &reply, Limits::larger())
}

// Appends why RS didn't begin, in the words of a refused settings text.
fn append_start_fault(buffer: &mut Vec<u8>, fault: NewFault) -> Result<(), NoRoom>
    ensures written { OnOk result (buffer.new.items ≡ buffer.old.items ++ start_fault_line fault) }
    ensures unchanged { OnErr result (buffer.new.items ≡ buffer.old.items) }
{
    match fault {
        NewFault::OutOfRange => append_settings_fault(buffer, SettingsCause::OutOfRange),
        NewFault::NoRoom => append_settings_fault(buffer, SettingsCause::NoRoom),
    }
}

// Appends the lines of actions and replies, and the number of actions.
fn append_acted(buffer: &mut Vec<u8>, actions: &Actions, replies: &Replies) -> Result<(), NoRoom>
    ensures written { OnOk result (buffer.new.items ≡ buffer.old.items ++ all_acted_lines actions.now replies.now) }
    ensures unchanged { OnErr result (buffer.new.items ≡ buffer.old.items) }
{
    let start = buffer.len();
    match append_all_acted(buffer, actions, replies) {
        Ok(()) => Ok(()),
        Err(NoRoom) => {
            buffer.truncate(start);
            Err(NoRoom)
        }
    }
}

// Like `append_acted`, but if memory runs out, some lines may remain.
fn append_all_acted(
    buffer: &mut Vec<u8>,
    actions: &Actions,
    replies: &Replies,
) -> Result<(), NoRoom>
    ensures written { OnOk result (buffer.new.items ≡ buffer.old.items ++ all_acted_lines actions.now replies.now) }
    ensures some { OnErr result (AppendsSome buffer.old.items buffer.new.items) }
{
    for index in 0..actions.len() {
        let Some(action) = actions.get(index) else {
            unreachable!()
        };
        append_action(buffer, action)?;
        append_reply_if(buffer, replies.get(index))?;
    }
    append_action_count(buffer, actions.len())
}

// Appends the lines of the store's reply to an action, if there is one.
fn append_reply_if(buffer: &mut Vec<u8>, reply: Option<&Option<Reply>>) -> Result<(), NoRoom>
    ensures written { OnOk result (buffer.new.items ≡ buffer.old.items ++ reply_lines_if (option_copied reply.entry)) }
    ensures unchanged { OnErr result (buffer.new.items ≡ buffer.old.items) }
{
    match reply {
        Some(Some(reply)) => append_reply(buffer, Wording::AsMerge, reply, Limits::larger()),
        _ => Ok(()),
    }
}
