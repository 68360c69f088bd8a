//! RS, and the processes of its services.

ghost use Rattle.std.specs.Prelude.{◌≡◌, ◌≢◌, ◌+◌, ◌<◌, ◌≤◌, ◌⊎◌, [], true, false, length, IfOk, IfErr, IfSome, IsNone, OnOk, OnErr};
ghost use Rattle.std.specs.List.{All};
ghost use Rattle.process_rule.specs.Supervisor.{new_service};
ghost use Rattle.process_keeper.specs.Doing.{IsSettled};
ghost use Rattle.process_keeper.specs.Order.{IsFirst, IsWritten, MayBeNext, TakesAt, is_rest};
ghost use Rattle.process_keeper.specs.Sight.{service};
ghost use Rattle.supervisor.specs.Renewal.{IsRenewed, RefusesRenewal};
ghost use Rattle.supervisor.specs.Following.{LabelsFollow, ReportsAndFollows, is_note};
ghost use Rattle.supervisor.specs.Telling.{IsRefusedBy, IsReportRefused, IsVouchRefused, ReportIsTold, Told, VouchesAt};

use crate::fault::{RenewalFault, SupervisorFault};
use crate::following::{follow, is_note};
use crate::instances::{dead_instance, pending_instance};
use crate::renewing::renewed_keeper;
use ds_names::NoRoom;
use process_keeper::{Input, Keeper, Task};
use rs_core::{Actions, Event, RenewFault, Rs};
use rs_settings::Settings;
use std::alloc::Global;

/// RS, and a keeper of the processes of its services. Labels have the numbers of RS's services, from 0.
#[derive(Drop)]
pub struct Supervisor {
    pub(crate) rs: Rs,
    pub(crate) keeper: Keeper,
}

impl Supervisor {
    /// Returns a supervisor that begins with this RS: an earlier run may have left processes of each label, and the file has RS's next
    /// generation. A supervisor without services takes no memory.
    pub fn new(alloc: Global, rs: Rs) -> Result<Supervisor, NoRoom>
        ensures rs { IfOk result (λ supervisor. supervisor.rs ≡ rs) }
        ensures count { IfOk result (λ supervisor. length supervisor.keeper.labels.items ≡ length rs.settings.services) }
        ensures labels { IfOk result (λ supervisor. All (λ p. service p ≡ new_service) supervisor.keeper.labels.items) }
        ensures generations { IfOk result (λ supervisor. (supervisor.keeper.next ≡ rs.next) × (supervisor.keeper.file ≡ rs.next)) }
        ensures room { OnErr result (rs.settings.services ≢ []) }
    {
        let count = rs.settings().services().len();
        let next = u64::from(rs.next_generation());
        match Keeper::new(alloc, count, next) {
            Ok(keeper) => Ok(Supervisor { rs, keeper }),
            Err(_) => Err(NoRoom),
        }
    }

    /// Tells RS an event, and has each label follow: an instance that RS starts is pending until its leader is forked, and an instance
    /// that RS stops gets the deadline, in milliseconds. Returns RS's actions.
    ///
    /// Refuses the event as RS does, then as `Unwritten` if it starts an instance and the file isn't ahead. If refused, nothing changes.
    pub fn event(
        &mut self,
        event: Event,
        tick: u64,
        deadline: u64,
    ) -> Result<Actions, SupervisorFault>
        ensures told { IfOk result (λ actions.
            Told self.old.rs self.old.keeper.next self.old.keeper.file event tick actions self.new.rs self.new.keeper.next) }
        ensures labels { OnOk result (LabelsFollow self.new.rs deadline self.old.keeper.labels.items self.new.keeper.labels.items) }
        ensures file { self.new.keeper.file ≡ self.old.keeper.file }
        ensures refused { IfErr result (λ fault. IsRefusedBy self.old.rs self.old.keeper.next self.old.keeper.file event tick fault) }
        ensures unchanged { OnErr result ((self.new.rs ≡ self.old.rs) × (self.new.keeper ≡ self.old.keeper)) }
    {
        match self.tell(event, tick) {
            Ok(actions) => {
                follow(&mut self.keeper, &self.rs, deadline);
                Ok(actions)
            }
            Err(fault) => Err(fault),
        }
    }

    /// Tells RS that the label's instance died, from this cause. What is left of the instance has no grace period. Then each label follows.
    ///
    /// Refuses as `NotDead` unless the instance is up and its leader exited, then as `event` does. A refused report changes nothing.
    pub fn report(
        &mut self,
        label: usize,
        cause: u64,
        tick: u64,
        now: u64,
    ) -> Result<Actions, SupervisorFault>
        ensures told { IfOk result (λ actions.
            ReportIsTold self.old.rs self.old.keeper.next self.old.keeper.file label cause tick actions self.new.rs self.new.keeper.next) }
        ensures labels { OnOk result (ReportsAndFollows self.new.rs label now self.old.keeper.labels.items self.new.keeper.labels.items) }
        ensures file { self.new.keeper.file ≡ self.old.keeper.file }
        ensures refused { IfErr result (λ fault.
            IsReportRefused self.old.rs self.old.keeper.labels.items self.old.keeper.next self.old.keeper.file label cause tick fault) }
        ensures unchanged { OnErr result ((self.new.rs ≡ self.old.rs) × (self.new.keeper ≡ self.old.keeper)) }
    {
        match dead_instance(&self.keeper, &self.rs, label) {
            Some(endpoint) => match self.tell(Event::Death(endpoint, cause), tick) {
                Ok(actions) => {
                    self.keeper.take(label, Input::Reported(now));
                    follow(&mut self.keeper, &self.rs, now);
                    Ok(actions)
                }
                Err(fault) => Err(fault),
            },
            None => Err(SupervisorFault::NotDead),
        }
    }

    /// Has RS hear a heartbeat of the label's instance, if its start is pending. So the tick doesn't judge an instance that hasn't begun.
    /// Returns whether RS heard one. Refuses as RS refuses the heartbeat; then nothing changes.
    pub fn vouch(&mut self, label: usize, tick: u64) -> Result<bool, SupervisorFault>
        ensures heard { IfOk result (λ heard. VouchesAt self.old.rs self.old.keeper.labels.items label tick heard self.new.rs) }
        ensures refused { IfErr result (λ fault. IsVouchRefused self.old.rs label tick fault) }
        ensures unchanged { OnErr result (self.new.rs ≡ self.old.rs) }
        ensures keeper { self.new.keeper ≡ self.old.keeper }
    {
        match pending_instance(&self.keeper, &self.rs, label) {
            Some(endpoint) => match self.rs.event(Event::Beat(endpoint), tick) {
                Ok(_) => Ok(true),
                Err(fault) => Err(SupervisorFault::Refused(fault)),
            },
            None => Ok(false),
        }
    }

    /// Takes other settings. A service whose label stays keeps its state and its processes, whatever its number is. Of a new one an
    /// earlier run may have left processes.
    ///
    /// Refuses the settings as `renewed_keeper` does. If refused, nothing changes.
    pub fn renew(&mut self, settings: Settings) -> Result<(), RenewalFault>
        ensures renewed { OnOk result (
            IsRenewed self.old.rs self.old.keeper.labels.items settings self.new.rs self.new.keeper.labels.items) }
        ensures generations { (self.new.keeper.next ≡ self.old.keeper.next) × (self.new.keeper.file ≡ self.old.keeper.file) }
        ensures refused { IfErr result (λ fault. RefusesRenewal self.old.rs self.old.keeper.labels.items settings fault) }
        ensures unchanged { OnErr result ((self.new.rs ≡ self.old.rs) × (self.new.keeper ≡ self.old.keeper)) }
    {
        let _settings = settings.slots(); // its clause says that they are checked
        match renewed_keeper(&self.keeper, &self.rs, &settings) {
            Ok(keeper) => match self.rs.renew(settings) {
                Ok(()) => {
                    self.keeper = keeper;
                    Ok(())
                }
                Err(_) => Err(RenewalFault::Refused(RenewFault::NoRoom)),
            },
            Err(fault) => Err(fault),
        }
    }

    /// Notes what was done to a label's processes, or seen of them. Returns whether the label accepts it; if not, nothing changes. Starts,
    /// stops and reports are RS's, and are never accepted here.
    pub fn note(&mut self, label: usize, input: Input) -> bool
        ensures taken { is_note input ≡ true → TakesAt self.old.keeper.labels.items label input result self.new.keeper.labels.items }
        ensures refused { is_note input ≡ false → (result ≡ false) × (self.new.keeper.labels.items ≡ self.old.keeper.labels.items) }
        ensures generations { (self.new.keeper.next ≡ self.old.keeper.next) × (self.new.keeper.file ≡ self.old.keeper.file) }
        ensures rs { self.new.rs ≡ self.old.rs }
    {
        if !is_note(&input) {
            return false;
        }
        self.keeper.take(label, input)
    }

    /// Returns the generation to write to the file, as `Keeper::to_write` does, or `None` if nothing is to be written.
    pub fn to_write(&self) -> Option<u64>
        ensures next { IfSome result (λ n. n ≡ self.now.keeper.next + 64) }
        ensures rest { IsNone result → (self.now.keeper.next < self.now.keeper.file) ⊎ (18446744073709551616 ≤ self.now.keeper.next + 64) }
    {
        self.keeper.to_write()
    }

    /// Notes that the file has this generation. Returns whether it may: not if a later one was given.
    pub fn note_written(&mut self, file: u64) -> bool
        ensures written { IsWritten self.old.keeper.next self.old.keeper.file file result self.new.keeper.file }
        ensures next { self.new.keeper.next ≡ self.old.keeper.next }
        ensures labels { self.new.keeper.labels.items ≡ self.old.keeper.labels.items }
        ensures rs { self.new.rs ≡ self.old.rs }
    {
        self.keeper.note_written(file)
    }

    /// Returns a label's number and what is to be done about its processes now, or `None` if nothing is, as `Keeper::task` does.
    pub fn task(&self, now: u64) -> Option<(usize, Task)>
        ensures may { IfSome result (λ next. MayBeNext self.now.keeper.labels.items now next) }
        ensures busy { IfSome result (λ next. is_rest next.1 ≡ false) }
        ensures order { IfSome result (λ next. IsFirst self.now.keeper.labels.items now next.1) }
        ensures rest { IsNone result → All (λ p. IsSettled p now) self.now.keeper.labels.items }
    {
        self.keeper.task(now)
    }

    /// Returns RS.
    pub fn rs(&self) -> &Rs
        ensures { result.now ≡ self.now.rs }
    {
        &self.rs
    }
}
