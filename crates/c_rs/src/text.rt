//! The text of the last answer, as a script prints it.

ghost use Rattle.std.specs.Prelude.{◌≡◌, ◌≢◌, [], IfOk, OnErr};
ghost use Rattle.c_store.specs.Text.{GivesText};
ghost use Rattle.c_rs.specs.Text.{text_in};
ghost use Rattle.rs_answers.specs.Served.{served_lines};
ghost use Rattle.script_answers.specs.declared.wording.Wording.TheVariants.{AsMerge};

use crate::session::RsSession;
use c_store::{give_part, give_text, no_text};
use c_values::Given;
use ds_names::NoRoom;
use rs_answers::append_served;
use rs_store::RsReply;
use script_answers::Wording;
use std::alloc::Global;

impl RsSession {
    /// Writes the text of the last answer to a buffer, as a script prints it, from a byte on: as many bytes as fit. Returns how many these
    /// are, and how many the whole text has. A later call writes the rest, until the next request. The text takes memory while it is
    /// written; if that runs out, nothing is written.
    pub fn give_text(&self, alloc: Global, first: usize, room: &mut [u8]) -> Given
        ensures { GivesText (text_in self.now) first room.old result room.new }
    {
        match &self.told {
            None => give_text(alloc, &self.session, first, room),
            Some(reply) => match write_served(alloc, reply) {
                Ok(text) => give_part(text.as_slice(), first, room),
                Err(NoRoom) => no_text(),
            },
        }
    }
}

// Returns the text of a reply of RS.
#[tactic(auto, using(crate::proofs::TextLemmas::served_has_lines))]
fn write_served(alloc: Global, reply: &RsReply) -> Result<Vec<u8>, NoRoom>
    ensures text { IfOk result (λ text. text.items ≡ served_lines AsMerge reply.now) }
    ensures room { OnErr result (served_lines AsMerge reply.now ≢ []) }
{
    let mut text = Vec::new(alloc);
    append_served(&mut text, Wording::AsMerge, reply)?;
    Ok(text)
}
