//! A session with RS beside its store.

ghost use Rattle.std.specs.Prelude.{◌≡◌, ◌≤◌, None, Some, IfOk, IfErr, OnOk};
ghost use Rattle.ds_feed.specs.Kept.{IsRing};
ghost use Rattle.ds_held.specs.Limits.{larger};
ghost use Rattle.ds_machine.specs.State.{opening};
ghost use Rattle.ds_names.specs.Limits.{last_place};
ghost use Rattle.ds_content.specs.Stands.{ContentStands};
ghost use Rattle.ds_store.specs.Opening.{IsOpenRefusal};
ghost use Rattle.c_store.specs.declared.last.Last.TheVariants.{Nothing};
ghost use Rattle.c_rs.specs.Serving.{RefusesCommand, ServesBy};
ghost use Rattle.c_rs.specs.Telling.{told_answer};

use crate::telling::told;
use c_store::Session;
use c_values::Answer;
use ds_machine::{Refusal, Reply};
use rs_core::Event;
use rs_store::RsReply;
use script_answers::Wording;
use std::alloc::Global;

/// A session, which has RS once it is open, and the last reply if it is RS's. Otherwise the session has the last reply.
#[derive(Drop)]
pub struct RsSession {
    /// The store, RS once it is open, and the store's last answer.
    pub session: Session,
    /// RS's last reply, if the last answer is RS's.
    pub told: Option<RsReply>,
}

impl RsSession {
    /// Opens a store of 128 subscriptions and 4096 keys; RS isn't open yet. Refuses what the store refuses.
    pub fn open(
        alloc: Global,
        incarnation: u64,
        first: u64,
        ring: u32,
    ) -> Result<RsSession, Refusal>
        ensures opened { IfOk result (λ s. ContentStands s.session.node.store (opening incarnation first ring larger)) }
        ensures fits { OnOk result (IsRing ring × (first ≤ last_place)) }
        ensures none { IfOk result (λ s. s.session.node.services ≡ None) }
        ensures silent { IfOk result (λ s. (s.session.last ≡ Nothing) × (s.told ≡ None)) }
        ensures refused { IfErr result (λ refusal. IsOpenRefusal refusal first ring) }
    {
        let session = Session::open(alloc, incarnation, first, ring)?;
        Ok(RsSession {
            session,
            told: None,
        })
    }

    /// Reports an event at a tick to RS, and passes the label changes and the sweeps of its actions to the store.
    pub(crate) fn serve(&mut self, event: Event, tick: u64, answer: &mut Answer)
        ensures { ServesBy event tick self.old answer.new self.new }
    {
        let reply = self.session.serve(event, tick);
        *answer = told(&reply);
        self.told = Some(reply);
    }

    /// Writes the answer of a reply of RS, and keeps the reply. The store and RS are unchanged.
    pub fn answer_reply(&mut self, reply: RsReply, answer: &mut Answer)
        ensures session { self.new.session ≡ self.old.session }
        ensures answered { answer.new ≡ told_answer reply }
        ensures kept { self.new.told ≡ Some reply }
    {
        *answer = told(&reply);
        self.told = Some(reply);
    }

    /// Refuses a command. The store and RS are unchanged.
    pub fn refuse(&mut self, refusal: Refusal, answer: &mut Answer)
        ensures { RefusesCommand refusal self.old answer.new self.new }
    {
        self.told = None;
        let reply = Reply::Refused(refusal);
        self.session.tell(Wording::AsMerge, reply, answer);
    }
}

/// Drops the last reply of RS, if there is one.
#[inline(always)]
pub(crate) fn let_go(told: &mut Option<RsReply>)
    ensures { told.new ≡ None }
{
    if told.is_some() {
        drop_reply(told);
    }
}

// Drops a reply. Not inlined, because most last replies are the session's.
#[inline(never)]
fn drop_reply(told: &mut Option<RsReply>)
    ensures { told.new ≡ None }
{
    *told = None;
}
