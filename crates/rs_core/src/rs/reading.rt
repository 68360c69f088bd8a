//! What callers read from RS between events.

ghost use Rattle.std.specs.Prelude.{◌≡◌, ◌<◌, ◌≤◌, ◌^◌, ℕ, nat_le, length, slice_get, is_some, Ok, Some, IfSome};
ghost use Rattle.rs_core.specs.Machine.{due, failures_of};
ghost use Rattle.rs_core.specs.Reading.{any_due, deals_at, declares_at, given_up, given_up_in, gives_up};
ghost use Rattle.rs_core.specs.Reading.{is_from, place_of_instance, IsFrom};
ghost use Rattle.rs_core.specs.Says.{place_of_label};
ghost use Rattle.rs_settings.specs.Dealing.{may_complain, may_connect};

use crate::deed::{Deed, Task};
use crate::due::first_due;
use crate::event::Event;
use crate::finding::Sought;
use crate::rs::Rs;
use crate::state::{State, failures_left};
use ds_names::{Endpoint, Key, Name};
use rs_settings::Service;

/// The last tick that RS accepts.
const LAST_TICK: u64 = 4611686018427387904;

impl Rs {
    /// Returns the index of the service that RS gives up at the event, if no fault applies to the event: its instance
    /// fails once more than its limit. No action reports it.
    pub fn gives_up(&self, event: &Event, tick: u64) -> Option<usize>
        ensures value { result ≡ given_up self.now event.now tick }
        ensures within { IfSome result (λ i. i < length self.now.states) }
    {
        match self.asked(event, tick) {
            Ok(Some(task)) => self.given_up_in(tick, &task),
            _ => None,
        }
    }

    // Returns the index of the service that RS gives up by the task.
    pub(crate) fn given_up_in(&self, tick: u64, task: &Task) -> Option<usize>
        requires { task.now.place < length self.now.states }
        ensures value { result ≡ given_up_in self.now tick (Ok (Some task.now)) }
        ensures within { IfSome result (λ i. i < length self.now.states) }
    {
        let gives_up = gives_up(
            tick,
            task.deed,
            self.service_at(task.place),
            &self.state_at(task.place),
        );
        if gives_up { Some(task.place) } else { None }
    }

    /// Returns the first tick, not below the last event's, at which a `Tick` has actions, or `None` if no `Tick` has
    /// any until another event.
    ///
    /// From that tick on, every `Tick` has actions until one is handled. No earlier one does.
    pub fn due(&self) -> Option<u64>
        ensures first { (tick : ℕ) → self.now.tick ≤ tick → tick ≤ 2 ^ 62 → is_some (due self.now tick) ≡ is_from result tick }
        ensures range { IfSome result (λ first. (self.now.tick ≤ first) × (first ≤ 2 ^ 62)) }
    {
        match self.first_due() {
            Some(first) => self.reached(first),
            None => None,
        }
    }

    /// Returns what RS knows about the service at an index of the settings, or `None` past the end.
    pub fn state_of(&self, index: usize) -> Option<State>
        ensures { result ≡ slice_get self.now.states index }
    {
        self.states.as_slice().get(index).copied()
    }

    /// Returns the index of the service that runs under the endpoint, or `None` if none does.
    pub fn place_of_instance(&self, endpoint: Endpoint) -> Option<usize>
        ensures value { result ≡ place_of_instance self.now endpoint }
        ensures within { IfSome result (λ i. i < length self.now.states) }
    {
        self.place(Sought::Instance(endpoint))
    }

    /// Returns whether the instance with the endpoint may publish under the key: it runs, and its service declares the
    /// key.
    pub fn may_publish(&self, endpoint: Endpoint, key: &Key) -> bool
        ensures { result ≡ declares_at self.now (place_of_instance self.now endpoint) key.now }
    {
        match self.place_of_instance(endpoint) {
            Some(place) => self.service_at(place).declares(key),
            None => false,
        }
    }

    /// Returns whether the instance with the endpoint may complain of the service with the label: it runs, there is
    /// such a service, and the settings let the one complain of the other.
    pub fn may_complain(&self, endpoint: Endpoint, label: &Name) -> bool
        ensures { result ≡ deals_at may_complain self.now (place_of_instance self.now endpoint) (place_of_label self.now label.now) }
    {
        match (self.place_of_instance(endpoint), self.place_of(label)) {
            (Some(place), Some(other)) => self
                .service_at(place)
                .may_complain(self.service_at(other)),
            _ => false,
        }
    }

    /// Returns whether the instance with the endpoint may connect to the service with the label: it runs, there is such
    /// a service, and the settings let the one connect to the other.
    pub fn may_connect(&self, endpoint: Endpoint, label: &Name) -> bool
        ensures { result ≡ deals_at may_connect self.now (place_of_instance self.now endpoint) (place_of_label self.now label.now) }
    {
        match (self.place_of_instance(endpoint), self.place_of(label)) {
            (Some(place), Some(other)) => self
                .service_at(place)
                .may_connect(self.service_at(other)),
            _ => false,
        }
    }

    // Returns the first tick at which something is due for any service; it may be below the last event's.
    fn first_due(&self) -> Option<u64>
        ensures { IsFrom (λ tick. any_due tick self.now.settings.services self.now.states) result }
    {
        first_due(self.settings.services(), self.states.as_slice())
    }

    // Returns the tick, or the last event's if that is later, or `None` for a tick that RS never accepts.
    #[tactic(auto, using(std::proofs::lemmas::Bool::Decides::nat_tests))]
    fn reached(&self, first: u64) -> Option<u64>
        ensures first { (tick : ℕ) → self.now.tick ≤ tick → tick ≤ 2 ^ 62 → is_from result tick ≡ nat_le first tick }
        ensures range { IfSome result (λ tick. (self.now.tick ≤ tick) × (tick ≤ 2 ^ 62)) }
    {
        if first > LAST_TICK {
            return None;
        }
        if first < self.tick {
            return Some(self.tick);
        }
        Some(first)
    }
}

// Returns whether the deed makes RS give up the service.
fn gives_up(tick: u64, deed: Deed, service: &Service, state: &State) -> bool
    requires { failures_of state.now ≤ 1000 }
    ensures { result ≡ gives_up tick deed service.now state.now }
{
    match deed {
        Deed::Lose(_) => match state {
            State::Up(running) => service.limit < failures_left(service.forget, tick, running) + 1,
            _ => false,
        },
        _ => false,
    }
}
