//! What an event calls for, and the faults against it.

ghost use Rattle.std.specs.Prelude.{◌≡◌, ◌<◌, ◌≤◌, ◌^◌, length, None, Some, Ok, IfOk, IfErr, IfSome, OnOk};
ghost use Rattle.rs_core.specs.Table.{on_label};
ghost use Rattle.rs_core.specs.Finding.{service_place};
ghost use Rattle.rs_core.specs.Machine.{of_label, of_instance, due, asked};
ghost use Rattle.rs_core.specs.Judging.{lack_for, refusal};

use crate::deed::{Deed, Task, on_death, on_label};
use crate::event::Event;
use crate::fault::RsFault;
use crate::finding::Sought;
use crate::judging::{is_bad_cause, takes_generation, takes_slot};
use crate::rs::Rs;
use ds_names::{Endpoint, Name};

impl Rs {
    // Returns what is due at the tick.
    fn due_at(&self, tick: u64) -> Option<Task>
        ensures value { result ≡ due self.now tick }
        ensures within { IfSome result (λ p. p.place < length self.now.states) }
    {
        if let Some(place) = self.place(Sought::Missed(tick)) {
            let deed = Deed::Lose(true);
            return Some(Task { place, deed });
        }
        if let Some(place) = self.place(Sought::Silent(tick)) {
            let deed = Deed::Ping;
            return Some(Task { place, deed });
        }
        match self.place(Sought::Rested(tick)) {
            Some(place) => Some(Task {
                place,
                deed: Deed::Resume,
            }),
            None => None,
        }
    }

    fn of_instance(&self, endpoint: Endpoint, deed: Deed) -> Result<Option<Task>, RsFault>
        ensures value { result ≡ of_instance deed (service_place self.now (Sought.Instance endpoint)) }
        ensures within { IfOk result (λ p. IfSome p (λ p. p.place < length self.now.states)) }
    {
        match self.place(Sought::Instance(endpoint)) {
            Some(place) => Ok(Some(Task { place, deed })),
            None => Err(RsFault::OldEndpoint),
        }
    }

    fn of_label(&self, event: &Event, label: Name) -> Result<Option<Task>, RsFault>
        ensures value { result ≡ of_label self.now (on_label event.now) (service_place self.now (Sought.Label label)) }
        ensures within { IfOk result (λ p. IfSome p (λ p. p.place < length self.now.states)) }
    {
        let Some(place) = self.place(Sought::Label(label)) else {
            return Err(RsFault::UnknownLabel);
        };
        match on_label(event, &self.state_at(place)) {
            Ok(deed) => Ok(Some(Task { place, deed })),
            Err(fault) => Err(fault),
        }
    }

    // Returns what the event calls for.
    pub(crate) fn asked(&self, event: &Event, tick: u64) -> Result<Option<Task>, RsFault>
        ensures value { result ≡ asked self.now event.now tick }
        ensures within { IfOk result (λ p. IfSome p (λ p. p.place < length self.now.states)) }
    {
        match event {
            Event::Up(label) | Event::Stop(label) | Event::Refresh(label) | Event::Restart(label) =>
                self.of_label(event, *label),
            Event::Death(endpoint, cause) => self.of_instance(*endpoint, on_death(*cause)),
            Event::Beat(endpoint) => self.of_instance(*endpoint, Deed::Hear),
            Event::Tick => Ok(self.due_at(tick)),
        }
    }

    // Returns what is missing for the deed.
    fn lack_for(&self, deed: Deed) -> Option<RsFault>
        ensures { result ≡ lack_for self.now deed }
    {
        if takes_generation(deed) && self.next > 2097151 {
            return Some(RsFault::GenerationsSpent);
        }
        if takes_slot(deed) && self.next_key() >= self.settings.slots() as usize {
            return Some(RsFault::NoSlot);
        }
        None
    }

    // Returns what the event calls for, or `None` if that is nothing. Refuses it by the first fault of the one order. BadCause is looked
    // for early, since only a death has a cause.
    pub(crate) fn judge(&self, event: &Event, tick: u64) -> Result<Option<Task>, RsFault>
        ensures refused { IfErr result (λ fault. refusal self.now event.now tick ≡ Some fault) }
        ensures allowed { OnOk result (refusal self.now event.now tick ≡ None) }
        ensures task { IfOk result (λ p. asked self.now event.now tick ≡ Ok p) }
        ensures within { IfOk result (λ p. IfSome p (λ p. p.place < length self.now.states)) }
        ensures tick { OnOk result (tick ≤ 2 ^ 62) }
        ensures room { IfOk result (λ p. IfSome p (λ p. lack_for self.now p.deed ≡ None)) }
    {
        if tick < self.tick {
            return Err(RsFault::TickBack);
        }
        if tick > 4611686018427387904 {
            return Err(RsFault::Worn);
        }
        if is_bad_cause(event) {
            return Err(RsFault::BadCause);
        }
        match self.asked(event, tick) {
            Ok(Some(task)) => match self.lack_for(task.deed) {
                Some(fault) => Err(fault),
                None => Ok(Some(task)),
            },
            Ok(None) => Ok(None),
            Err(fault) => Err(fault),
        }
    }
}
