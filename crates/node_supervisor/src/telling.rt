//! Telling RS an event, beside its store.

ghost use Rattle.std.specs.Prelude.{◌≡◌, Some, IfOk, IfErr, OnErr};
ghost use Rattle.rs_store.specs.Serving.{EventTurn};
ghost use Rattle.node_supervisor.specs.Telling.{Holds, IsNodeRefusal, ToldBy, why_refused, next_start};

use crate::processes::Processes;
use process_keeper::Keeper;
use rs_core::{Event, Rs, RsFault};
use rs_store::{RsReply, RsStore};
use supervisor::{SupervisorFault, count_start, is_held};

impl Processes {
    // Passes the event to RS and its store, and counts the generation of an instance that RS starts. Labels don't change.
    #[tactic(auto, using(crate::proofs::TellLemmas::held, crate::proofs::TellLemmas::refused, crate::proofs::TellLemmas::unchanged, crate::proofs::TellLemmas::told))]
    pub(crate) fn tell(
        &mut self,
        node: &mut RsStore,
        event: Event,
        tick: u64,
    ) -> Result<RsReply, SupervisorFault>
        ensures turn { IfOk result (λ reply. EventTurn event tick node.old.services node.old.store reply node.new.services node.new.store) }
        ensures told { IfOk result (λ reply.
            ToldBy node.old.services self.old.keeper.next self.old.keeper.file event tick node.new.services self.new.keeper.next) }
        ensures labels { self.new.keeper.labels.items ≡ self.old.keeper.labels.items }
        ensures file { self.new.keeper.file ≡ self.old.keeper.file }
        ensures refused { IfErr result (λ fault.
            IsNodeRefusal node.old.services self.old.keeper.next self.old.keeper.file event tick fault) }
        ensures unchanged { OnErr result ((node.new ≡ node.old) × (self.new.keeper ≡ self.old.keeper)) }
    {
        if self.holds(node, &event, tick) {
            return Err(SupervisorFault::Unwritten);
        }
        let before = next_start(node);
        let reply = node.tell(event, tick);
        match why_refused(&reply) {
            Some(fault) => Err(SupervisorFault::Refused(fault)),
            None => {
                count_start(&mut self.keeper, before, next_start(node));
                Ok(reply)
            }
        }
    }

    // Returns whether the event starts an instance, and the file isn't ahead.
    fn holds(&self, node: &RsStore, event: &Event, tick: u64) -> bool
        ensures { Holds node.now.services self.now.keeper.next self.now.keeper.file event.now tick result }
    {
        match node.services() {
            Some(rs) => holds_by(&self.keeper, rs, event, tick),
            None => false,
        }
    }
}

// Returns whether RS's plan of the event waits for the file. No plan is made while the file is ahead.
fn holds_by(keeper: &Keeper, rs: &Rs, event: &Event, tick: u64) -> bool
    ensures { Holds (Some rs.now) keeper.now.next keeper.now.file event.now tick result }
{
    if keeper.may_give() {
        return false;
    }
    match rs.plan(event, tick) {
        Ok(plan) => is_held(keeper, &plan),
        Err(_) => false,
    }
}

// Returns the generation of RS's next start, or 0 before RS has begun.
fn next_start(node: &RsStore) -> u32
    ensures { result ≡ next_start node.now.services }
{
    match node.services() {
        Some(rs) => rs.next_generation(),
        None => 0,
    }
}

// Returns why RS refused the event, if it did.
pub(crate) fn why_refused(reply: &RsReply) -> Option<RsFault>
    ensures { result ≡ why_refused reply.now }
{
    match reply {
        RsReply::Refused(fault) => Some(*fault),
        _ => None,
    }
}
