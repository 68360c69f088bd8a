//! The reincarnation server itself.

ghost use Rattle.std.specs.Prelude.{◌≡◌, ◌≢◌, ℕ, ◌<◌, ◌≤◌, [], option_map, ◌↔◌, ◌⊎◌, IsErrOf, length, replicate};
ghost use Rattle.std.specs.Prelude.{None, Some, true, IfOk, IfErr, IfSome, OnErr};
ghost use Rattle.rs_settings.specs.Settings.{IsService, IsSettings};
ghost use Rattle.rs_core.specs.Slots.{new_slots, next_key};
ghost use Rattle.rs_core.specs.State.{rs_of, state_at, service_at, up_count};
ghost use Rattle.rs_core.specs.Finding.{service_place};
ghost use Rattle.rs_core.specs.Machine.{asked, failures_of};
ghost use Rattle.rs_core.specs.Judging.{refusal, asks, has_actions};
ghost use Rattle.rs_core.specs.Planning.{IsPlanOf, PlanFits, acts, given_up_by};
ghost use Rattle.rs_core.specs.Step.{RsStep};
ghost use Rattle.rs_core.specs.Kept.{IsNotAt, IsOutOfRange, HaveTwoSlots};
ghost use Rattle.rs_core.specs.Says.{place_of_label};

mod asking;
mod doing;
mod reading;
mod renewing;

use crate::action::Actions;
use crate::event::Event;
use crate::fault::{NewFault, RsFault};
use crate::finding::{Sought, place_of};
use crate::plan::Plan;
use crate::slots::Slots;
use crate::state::State;
use ds_names::{Name, NoRoom};
use rs_settings::{Service, Settings};
use std::alloc::{AllocError, Global};
use std::marker::Model;

/// RS: what it knows about each service, and its process slots.
#[derive(Drop)]
pub struct Rs {
    alloc: Global,
    settings: Settings,
    // One for each service, in the order of the settings.
    states: Vec<State>,
    slots: Slots,
    tick: u64,
    next: u32,
}

impl Model for Rs {
    ghost use Rattle.rs_settings.specs.contracts.settings.Settings.{the_row as settings_row};
    ghost use Rattle.rs_core.specs.contracts.state.State.{the_row as state_row};
    ghost use Rattle.rs_core.specs.State.{RsRecord, rs_of, rs_code};
    ghost use Rattle.rs_core.specs.Kept.{IsRs};

    ghost Value = { RsRecord };

    ghost coded = { rs_code settings_row.coded state_row.coded };

    ghost view = { λ r. rs_of r.settings r.states.items r.tick r.next r.slots };

    ghost invariant = { λ r. IsRs r.settings r.states.items r.tick r.next r.slots };
}

impl Rs {
    /// Returns RS before any event: every service is down. `next` is the generation of the first start, and the first
    /// slot is 16. Refuses as OutOfRange unless `next` is 1 to 2097152, then as NoRoom. RS without services takes no
    /// memory.
    pub fn new(alloc: Global, settings: Settings, next: u32) -> Result<Rs, NewFault>
        ensures value { IfOk result (λ rs. rs ≡ rs_of settings (replicate (length settings.services) State.Down) 0 next (new_slots 16)) }
        ensures range { IsErrOf result NewFault.OutOfRange ↔ (next < 1 ⊎ 2097152 < next) }
        ensures room { IfErr result (λ fault. fault ≡ NewFault.NoRoom → settings.services ≢ []) }
    {
        let _slots = settings.slots();
        Rs::from_slot(alloc, settings, next, 16)
    }

    /// Like `new`, with slots from `first` on. Also refuses as OutOfRange if `first` is below 16, or the last slot above
    /// 1023.
    ///
    /// Two hosts whose slots don't overlap never use the same endpoint.
    pub fn from_slot(
        alloc: Global,
        settings: Settings,
        next: u32,
        first: u16,
    ) -> Result<Rs, NewFault>
        ensures value { IfOk result (λ rs. rs ≡ rs_of settings (replicate (length settings.services) State.Down) 0 next (new_slots first)) }
        ensures range { IsErrOf result NewFault.OutOfRange ↔ IsOutOfRange settings.slots next first }
        ensures room { IfErr result (λ fault. fault ≡ NewFault.NoRoom → settings.services ≢ []) }
    {
        if next < 1 || next > 2097152 || first < 16 || u32::from(first) + settings.slots() > 1024 {
            return Err(NewFault::OutOfRange);
        }
        let Ok(states) = all_down(alloc, settings.services().len()) else {
            return Err(NewFault::NoRoom);
        };
        Ok(Rs {
            alloc,
            settings,
            states,
            slots: Slots::new(first),
            tick: 0,
            next,
        })
    }

    /// Handles one event at a tick, and returns the actions, in order. A refused event changes nothing, not even the
    /// tick.
    ///
    /// NoRoom is reported after every other fault, and only for an event that has actions: not for a heartbeat, for a
    /// `Stop` that ends a wait, or for a tick at which nothing is due.
    ///
    /// A tick does one thing. Reported until it has no actions, it settles RS: by the laws `ticks_settle` and
    /// `services_recover`, each service whose wait is over runs then, and at most as many reports as services have actions.
    pub fn event(&mut self, event: Event, tick: u64) -> Result<Actions, RsFault>
        ensures step { IfOk result (λ actions. RsStep self.old event tick actions self.new) }
        ensures refused { IfErr result (λ fault. fault ≢ RsFault.NoRoom → refusal self.old event tick ≡ Some fault) }
        ensures last { IfErr result (λ fault. fault ≡ RsFault.NoRoom → refusal self.old event tick ≡ None) }
        ensures room { IfErr result (λ fault. fault ≡ RsFault.NoRoom → asks has_actions (asked self.old event tick) ≡ true) }
        ensures unchanged { OnErr result (self.new ≡ self.old) }
    {
        let plan = self.plan(&event, tick)?;
        match self.carry_out(plan) {
            Ok(actions) => Ok(actions),
            Err(NoRoom) => Err(RsFault::NoRoom),
        }
    }

    /// Plans an event at a tick. Changes nothing, and takes no memory.
    ///
    /// Refuses the event by the first fault in the order of `RsFault`, never by NoRoom.
    pub fn plan(&self, event: &Event, tick: u64) -> Result<Plan, RsFault>
        ensures plan { IfOk result (λ plan. IsPlanOf self.now event.now tick plan) }
        ensures fits { IfOk result (λ plan. PlanFits self.now plan) }
        ensures refused { IfErr result (λ fault. refusal self.now event.now tick ≡ Some fault) }
        ensures room { IfErr result (λ fault. fault ≢ RsFault.NoRoom) }
    {
        match self.judge(event, tick) {
            Ok(task) => Ok(Plan { tick, task }),
            Err(fault) => Err(fault),
        }
    }

    /// Carries out a plan that was made for this state, and returns the actions, in order. This is the step of every
    /// event that has this plan.
    ///
    /// Only a plan with actions takes memory. If memory runs out, nothing changes.
    pub fn carry_out(&mut self, plan: Plan) -> Result<Actions, NoRoom>
        requires { PlanFits self.old plan }
        ensures step { IfOk result (λ actions. (event : Event) (tick : ℕ) → IsPlanOf self.old event tick plan →
            RsStep self.old event tick actions self.new) }
        ensures room { OnErr result (acts plan ≡ true) }
        ensures unchanged { OnErr result (self.new ≡ self.old) }
    {
        match plan.task {
            Some(task) => self.follow(task, plan.tick),
            None => Ok(self.idle(plan.tick)),
        }
    }

    /// Returns the index of the service that RS gives up by a plan that was made for this state: its instance fails once
    /// more than its limit. No action reports it.
    pub fn given_up(&self, plan: &Plan) -> Option<usize>
        requires { PlanFits self.now plan.now }
        ensures value { result ≡ given_up_by self.now plan.now }
        ensures within { IfSome result (λ i. i < length self.now.states) }
    {
        match &plan.task {
            Some(task) => self.given_up_in(plan.tick, task),
            None => None,
        }
    }

    /// Returns what RS knows about the service with the label, or `None` if there is no such service.
    pub fn state(&self, label: &Name) -> Option<State>
        ensures { result ≡ option_map (state_at self.now) (place_of_label self.now label.now) }
    {
        match self.place(Sought::Label(*label)) {
            Some(place) => Some(self.state_at(place)),
            None => None,
        }
    }

    /// Returns the index in the settings of the service with the label, or `None` if there is no such service.
    pub fn place_of(&self, label: &Name) -> Option<usize>
        ensures value { result ≡ place_of_label self.now label.now }
        ensures within { IfSome result (λ i. i < length self.now.states) }
        ensures count { length self.now.states ≡ length self.now.settings.services }
    {
        let _ = &self.alloc;
        self.place(Sought::Label(*label))
    }

    /// Returns the generation of the next start, 1 to 2097152. No start gets 2097152.
    pub fn next_generation(&self) -> u32
        ensures value { result ≡ self.now.next }
        ensures some { 1 ≤ self.now.next }
        ensures last { self.now.next ≤ 2097152 }
    {
        self.next
    }

    /// Returns the key of the slot that the next start takes, unless that start replaces an instance. The first slot
    /// has key 0.
    ///
    /// The slot is one of the settings' slots exactly if fewer services are up than there are slots. No running service
    /// is in it, and no two running services share a slot.
    pub fn next_key(&self) -> usize
        ensures value { result ≡ next_key self.now.slots }
        ensures within { (result < self.now.settings.slots) ↔ (up_count self.now.states < self.now.settings.slots) }
        ensures free { (i : ℕ) → i < length self.now.states → IsNotAt self.now.slots.first result (state_at self.now i) }
        ensures own { (i j : ℕ) → i < j → j < length self.now.states → HaveTwoSlots (state_at self.now i) (state_at self.now j) }
    {
        self.slots.next_key()
    }

    /// Returns the settings.
    pub fn settings(&self) -> &Settings
        ensures value { result.now ≡ self.now.settings }
        ensures settings { IsSettings self.now.settings }
    {
        &self.settings
    }

    // Returns the index of the service that is looked up.
    fn place(&self, what: Sought) -> Option<usize>
        ensures value { result ≡ service_place self.now what }
        ensures within { IfSome result (λ i. i < length self.now.states) }
    {
        place_of(&what, self.settings.services(), self.states.as_slice())
    }

    fn state_at(&self, place: usize) -> State
        requires { place < length self.now.states }
        ensures value { result ≡ state_at self.now place }
        ensures failures { failures_of result ≤ 1000 }
    {
        self.states[place]
    }

    fn service_at(&self, place: usize) -> &Service
        requires { place < length self.now.states }
        ensures value { result.now ≡ service_at self.now place }
        ensures service { IsService result.now }
    {
        match self.settings.services().get(place) {
            Some(service) => service,
            None => unreachable!(),
        }
    }
}

// Returns `count` states, all down. Takes no memory for none.
fn all_down(alloc: Global, count: usize) -> Result<Vec<State>, AllocError>
    ensures down { IfOk result (λ states. states.items ≡ replicate count State.Down) }
    ensures room { OnErr result (0 < count) }
{
    if count == 0 {
        return Ok(Vec::new(alloc));
    }
    vec![in alloc; State::Down; count]
}
