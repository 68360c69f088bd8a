//! The processes of the services of RS beside its store.

ghost use Rattle.std.specs.Prelude.{◌≡◌, ◌≢◌, ◌+◌, ◌<◌, ◌≤◌, ◌⊎◌, ℕ, [], true, false, length, IfOk, IfErr, IfSome, IsNone, OnOk, OnErr};
ghost use Rattle.std.specs.List.{All};
ghost use Rattle.process_rule.specs.Supervisor.{new_service};
ghost use Rattle.process_keeper.specs.Doing.{IsSettled};
ghost use Rattle.process_keeper.specs.Order.{IsFirst, IsWritten, MayBeNext, TakesAt, is_rest};
ghost use Rattle.process_keeper.specs.Sight.{service};
ghost use Rattle.process_keeper.specs.Waking.{due_at};
ghost use Rattle.rs_store.specs.Serving.{EventTurn};
ghost use Rattle.supervisor.specs.Following.{is_note};
ghost use Rattle.supervisor.specs.Moves.Move.{Report, Tell};
ghost use Rattle.node_supervisor.specs.Moves.{Supervises};
ghost use Rattle.node_supervisor.specs.Renewal.{RenewsNode};
ghost use Rattle.node_supervisor.specs.Telling.{IsNodeRefusal, IsNodeReportRefused, IsNodeVouchRefused, ReportTurn, VouchesNode};

use crate::counting::count_of;
use crate::telling::why_refused;
use ds_names::NoRoom;
use process_keeper::{Input, Keeper, Task};
use rs_core::{Event, Rs};
use rs_settings::Settings;
use rs_store::{RsReply, RsStore};
use std::alloc::Global;
use supervisor::{RenewalFault, SupervisorFault, is_note};

/// The keepers of the processes of a node's services. Labels have the numbers of RS's services, from 0. The node is RS beside its store:
/// each call is made with the same one.
#[derive(Drop)]
pub struct Processes {
    pub(crate) keeper: Keeper,
}

impl Processes {
    /// Returns the keepers of RS's services: an earlier run may have left processes of each, and the file has RS's next generation. Keepers
    /// of no service take no memory.
    pub fn new(alloc: Global, rs: &Rs) -> Result<Processes, NoRoom>
        ensures count { IfOk result (λ it. length it.keeper.labels.items ≡ length rs.now.states) }
        ensures labels { IfOk result (λ it. All (λ p. service p ≡ new_service) it.keeper.labels.items) }
        ensures generations { IfOk result (λ it. (it.keeper.next ≡ rs.now.next) × (it.keeper.file ≡ rs.now.next)) }
        ensures room { OnErr result (rs.now.settings.services ≢ []) }
    {
        let next = u64::from(rs.next_generation());
        match Keeper::new(alloc, count_of(rs), next) {
            Ok(keeper) => Ok(Processes { keeper }),
            Err(_) => Err(NoRoom),
        }
    }

    /// Passes an event to RS and its store, as `RsStore::tell` does, and has each label follow: an instance that RS starts is pending until
    /// its leader is forked, and an instance that RS stops gets the deadline, in milliseconds.
    ///
    /// Refuses the event as `Supervisor::event` does. If refused, nothing changes.
    #[tactic(auto, using(crate::proofs::TellLemmas::told_moves))]
    pub fn event(
        &mut self,
        node: &mut RsStore,
        event: Event,
        tick: u64,
        deadline: u64,
    ) -> Result<RsReply, SupervisorFault>
        ensures turn { IfOk result (λ reply. EventTurn event tick node.old.services node.old.store reply node.new.services node.new.store) }
        ensures moves { OnOk result (
            Supervises node.old.services self.old.keeper (Tell event tick deadline) node.new.services self.new.keeper) }
        ensures file { self.new.keeper.file ≡ self.old.keeper.file }
        ensures refused { IfErr result (λ fault.
            IsNodeRefusal node.old.services self.old.keeper.next self.old.keeper.file event tick fault) }
        ensures unchanged { OnErr result ((node.new ≡ node.old) × (self.new.keeper ≡ self.old.keeper)) }
    {
        match self.tell(node, event, tick) {
            Ok(reply) => {
                self.follow(node, deadline);
                Ok(reply)
            }
            Err(fault) => Err(fault),
        }
    }

    /// Tells RS that the label's instance died, from this cause. What is left of the instance has no grace period. Then each label follows.
    ///
    /// Refuses as `NotDead` unless RS counts the instance as up and its leader exited, then as `event` does. If refused, nothing changes.
    #[tactic(auto, using(crate::proofs::TellLemmas::report_moves, crate::proofs::TellLemmas::report_turn, crate::proofs::TellLemmas::report_refused, crate::proofs::TellLemmas::not_dead))]
    pub fn report(
        &mut self,
        node: &mut RsStore,
        label: usize,
        cause: u64,
        tick: u64,
        now: u64,
    ) -> Result<RsReply, SupervisorFault>
        ensures turn { IfOk result (λ reply.
            ReportTurn node.old.services node.old.store label cause tick reply node.new.services node.new.store) }
        ensures moves { OnOk result (
            Supervises node.old.services self.old.keeper (Report label cause tick now) node.new.services self.new.keeper) }
        ensures file { self.new.keeper.file ≡ self.old.keeper.file }
        ensures refused { IfErr result (λ fault. IsNodeReportRefused node.old.services self.old.keeper label cause tick fault) }
        ensures unchanged { OnErr result ((node.new ≡ node.old) × (self.new.keeper ≡ self.old.keeper)) }
    {
        match self.dead(node, label) {
            Some(endpoint) => match self.tell(node, Event::Death(endpoint, cause), tick) {
                Ok(reply) => {
                    self.keeper.take(label, Input::Reported(now));
                    self.follow(node, now);
                    Ok(reply)
                }
                Err(fault) => Err(fault),
            },
            None => Err(SupervisorFault::NotDead),
        }
    }

    /// Has RS hear a heartbeat of the label's instance, if its start is pending. So the tick doesn't judge an instance that hasn't begun.
    /// Returns whether RS heard one. Refuses as RS refuses the heartbeat; then nothing changes.
    pub fn vouch(
        &self,
        node: &mut RsStore,
        label: usize,
        tick: u64,
    ) -> Result<bool, SupervisorFault>
        ensures heard { IfOk result (λ heard.
            VouchesNode node.old.services self.now.keeper.labels.items label tick heard node.new.services) }
        ensures refused { IfErr result (λ fault. IsNodeVouchRefused node.old.services label tick fault) }
        ensures store { node.new.store ≡ node.old.store }
        ensures unchanged { OnErr result (node.new ≡ node.old) }
    {
        match self.pending(node, label) {
            Some(endpoint) => {
                let reply = node.tell(Event::Beat(endpoint), tick);
                match why_refused(&reply) {
                    Some(fault) => Err(SupervisorFault::Refused(fault)),
                    None => Ok(true),
                }
            }
            None => Ok(false),
        }
    }

    /// Gives RS other settings, as `RsStore::renew` does, and the services their processes: a service whose label stays keeps its state and
    /// its processes, whatever its number is. Of a new one an earlier run may have left processes. Returns `None` if RS hasn't begun.
    ///
    /// Refuses the settings as `Supervisor::renew` does. If refused, nothing changes. The store is unchanged.
    #[tactic(auto, using(crate::proofs::RenewalLemmas::taken, crate::proofs::RenewalLemmas::refused_by_rs, crate::proofs::RenewalLemmas::no_rs, crate::proofs::RenewalLemmas::refused_before, crate::proofs::RenewalLemmas::not_begun))]
    pub fn renew(
        &mut self,
        node: &mut RsStore,
        settings: Settings,
    ) -> Option<Result<(), RenewalFault>>
        ensures renews { RenewsNode node.old.services self.old.keeper settings result node.new.services self.new.keeper }
        ensures store { node.new.store ≡ node.old.store }
    {
        let _settings = settings.slots(); // its clause says that they are checked
        match self.renewed_for(node, &settings) {
            Some(Ok(keeper)) => match node.renew(settings) {
                None => None,
                Some(Ok(())) => {
                    self.keeper = keeper;
                    Some(Ok(()))
                }
                Some(Err(fault)) => Some(Err(RenewalFault::Refused(fault))),
            },
            Some(Err(fault)) => Some(Err(fault)),
            None => None,
        }
    }

    /// Notes what was done to a label's processes, or seen of them. Returns whether the label accepts it; if not, nothing changes. Starts,
    /// stops and reports are RS's, and are never accepted here.
    pub fn note(&mut self, label: usize, input: Input) -> bool
        ensures taken { is_note input ≡ true → TakesAt self.old.keeper.labels.items label input result self.new.keeper.labels.items }
        ensures refused { is_note input ≡ false → (result ≡ false) × (self.new.keeper.labels.items ≡ self.old.keeper.labels.items) }
        ensures generations { (self.new.keeper.next ≡ self.old.keeper.next) × (self.new.keeper.file ≡ self.old.keeper.file) }
    {
        if !is_note(&input) {
            return false;
        }
        self.keeper.take(label, input)
    }

    /// Returns the generation to write to the file, as `Keeper::to_write` does, or `None` if nothing is to be written.
    pub fn to_write(&self) -> Option<u64>
        ensures next { IfSome result (λ n. n ≡ self.now.keeper.next + 64) }
        ensures rest { IsNone result → (self.now.keeper.next < self.now.keeper.file) ⊎ (18446744073709551616 ≤ self.now.keeper.next + 64) }
    {
        self.keeper.to_write()
    }

    /// Notes that the file has this generation. Returns whether it may: not if a later one was given.
    pub fn note_written(&mut self, file: u64) -> bool
        ensures written { IsWritten self.old.keeper.next self.old.keeper.file file result self.new.keeper.file }
        ensures next { self.new.keeper.next ≡ self.old.keeper.next }
        ensures labels { self.new.keeper.labels.items ≡ self.old.keeper.labels.items }
    {
        self.keeper.note_written(file)
    }

    /// Returns a label's number and what is to be done about its processes now, or `None` if nothing is, as `Keeper::task` does.
    pub fn task(&self, now: u64) -> Option<(usize, Task)>
        ensures may { IfSome result (λ next. MayBeNext self.now.keeper.labels.items now next) }
        ensures busy { IfSome result (λ next. is_rest next.1 ≡ false) }
        ensures order { IfSome result (λ next. IsFirst self.now.keeper.labels.items now next.1) }
        ensures rest { IsNone result → All (λ p. IsSettled p now) self.now.keeper.labels.items }
    {
        self.keeper.task(now)
    }

    /// Returns the first time after this one at which a start is tried again or a grace period is over, as `Keeper::due` does.
    pub fn due(&self, now: u64) -> u64
        ensures first { result ≡ due_at self.now.keeper.labels.items now }
        ensures rest { (t : ℕ) → t < result → All (λ p. IsSettled p now) self.now.keeper.labels.items →
            All (λ p. IsSettled p t) self.now.keeper.labels.items }
    {
        self.keeper.due(now)
    }
}
