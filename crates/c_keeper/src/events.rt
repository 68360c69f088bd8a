//! Events of RS, deaths and heartbeats, and the processes that follow.

ghost use Rattle.std.specs.Prelude.{◌≡◌};
ghost use Rattle.c_keeper.specs.Keeping.{IsVouched, KeepsEvent, KeepsReport, PassesEvent, PassesReport, AnswersResult, Vouches, vouch_word};

use crate::session::KeeperSession;
use crate::words::{BEHIND, DONE, NOT_FOUND, NOT_PENDING, NOT_UP};
use c_rs::{RsEvent, RsSession, event_of, rs_fault_number};
use c_values::Answer;
use ds_machine::Refusal;
use node_supervisor::Processes;
use rs_core::{Event, RsFault};
use rs_store::RsReply;
use supervisor::SupervisorFault;

impl KeeperSession {
    /// Passes the event of a struct to RS and its store, and has the processes of each service follow: an instance that RS stops gets the
    /// deadline. Returns 0, or NotFound if keepers aren't open; then nothing changes.
    ///
    /// Answers as RS does. Refuses as Behind if the event starts an instance and the generation isn't written, before RS's NoRoom.
    pub fn keep_event(&mut self, event: &RsEvent, deadline: u64, answer: &mut Answer) -> u32
        ensures { KeepsEvent event.now deadline self.old answer.old result answer.new self.new }
    {
        let Some(processes) = &mut self.processes else {
            return NOT_FOUND;
        };
        match event_of(event) {
            Some(what) => pass_event(&mut self.rs, processes, what, event.tick, deadline, answer),
            None => self.rs.decline(answer),
        }
        DONE
    }

    /// Reports to RS that a service's instance died, from this cause. What is left of the instance has no grace period. Then the processes
    /// of each service follow. Returns 0, or NotFound if keepers aren't open; then nothing changes.
    ///
    /// Answers as RS does to the death. Refuses as NotUp unless RS counts the instance as up and its leader exited.
    pub fn report(
        &mut self,
        service: usize,
        cause: u32,
        tick: u64,
        now: u64,
        answer: &mut Answer,
    ) -> u32
        ensures { KeepsReport service cause tick now self.old answer.old result answer.new self.new }
    {
        let Some(processes) = &mut self.processes else {
            return NOT_FOUND;
        };
        pass_report(&mut self.rs, processes, service, cause, tick, now, answer);
        DONE
    }

    /// Has RS hear a heartbeat of a service's instance, if its start is pending. Returns 0; NotFound if keepers aren't open; NotPending if
    /// no start of it is pending; or why RS refuses the heartbeat. The store and the last answer are unchanged.
    pub fn vouch(&mut self, service: usize, tick: u64) -> u32
        ensures { Vouches service tick self.old result self.new }
    {
        let Some(processes) = &self.processes else {
            return NOT_FOUND;
        };
        vouch_in(&mut self.rs, processes, service, tick)
    }
}

// Passes an event to RS and its store, and writes the answer.
fn pass_event(
    rs: &mut RsSession,
    processes: &mut Processes,
    event: Event,
    tick: u64,
    deadline: u64,
    answer: &mut Answer,
)
    ensures { PassesEvent event tick deadline rs.old processes.old answer.new rs.new processes.new }
{
    let result = processes.event(&mut rs.session.node, event, tick, deadline);
    answer_result(rs, result, answer);
}

// Reports a death to RS and its store, and writes the answer.
fn pass_report(
    rs: &mut RsSession,
    processes: &mut Processes,
    service: usize,
    cause: u32,
    tick: u64,
    now: u64,
    answer: &mut Answer,
)
    ensures { PassesReport service cause tick now rs.old processes.old answer.new rs.new processes.new }
{
    let result = processes.report(&mut rs.session.node, service, u64::from(cause), tick, now);
    answer_result(rs, result, answer);
}

// Writes the answer of a reply or of a fault, and keeps the reply. RS and its store are unchanged.
fn answer_result(rs: &mut RsSession, outcome: Result<RsReply, SupervisorFault>, answer: &mut Answer)
    ensures node { rs.new.session.node ≡ rs.old.session.node }
    ensures answered { AnswersResult outcome answer.new rs.new }
{
    match outcome {
        Ok(reply) => rs.answer_reply(reply, answer),
        Err(SupervisorFault::NotDead) => rs.answer_reply(RsReply::Refused(RsFault::NotUp), answer),
        Err(SupervisorFault::Refused(fault)) => rs.answer_reply(RsReply::Refused(fault), answer),
        Err(SupervisorFault::Unwritten) => rs.refuse(Refusal::Behind, answer),
    }
}

// Has RS hear a heartbeat of a pending start.
fn vouch_in(rs: &mut RsSession, processes: &Processes, service: usize, tick: u64) -> u32
    ensures { IsVouched processes.now service tick rs.old result rs.new }
{
    let vouched = processes.vouch(&mut rs.session.node, service, tick);
    vouch_word(&vouched)
}

// Returns the word of a heartbeat that was heard, needn't be, or is refused.
fn vouch_word(vouched: &Result<bool, SupervisorFault>) -> u32
    ensures { result ≡ vouch_word vouched.now }
{
    match vouched {
        Ok(true) => DONE,
        Ok(false) => NOT_PENDING,
        Err(SupervisorFault::NotDead) => NOT_UP,
        Err(SupervisorFault::Refused(fault)) => rs_fault_number(*fault),
        Err(SupervisorFault::Unwritten) => BEHIND,
    }
}
