//! Other settings for RS while it runs.

ghost use Rattle.std.specs.Prelude.{◌≡◌, ◌≢◌, ◌<◌, [], length, map, None, Some, IfOk, IfErr, IfSome, OnOk, OnErr};
ghost use Rattle.rs_core.specs.Renewal.{first_left_out, has_label, is_begun, is_left_out, renewal_fault, renewed, state_of_label};

use crate::fault::RenewFault;
use crate::rs::Rs;
use crate::state::State;
use ds_names::{Name, NoRoom};
use rs_settings::{Service, Services, Settings};

impl Rs {
    /// Takes other settings. A service whose label stays keeps its state, whatever its index and its other fields are.
    /// A new one is down. The tick, the next generation and the slots are unchanged, so no generation is used twice.
    ///
    /// Refuses as FewerSlots if the settings have fewer slots than those in force, then as OutOfRange if the last slot
    /// is above 1023, then as StillUp if a service that they lack runs or waits, then as NoRoom, which only settings
    /// with a service report. A refusal changes nothing.
    pub fn renew(&mut self, settings: Settings) -> Result<(), RenewFault>
        ensures renewed { OnOk result (self.new ≡ renewed self.old settings) }
        ensures accepted { OnOk result (renewal_fault self.old settings ≡ None) }
        ensures refused { IfErr result (λ fault. fault ≢ RenewFault.NoRoom → renewal_fault self.old settings ≡ Some fault) }
        ensures last { IfErr result (λ fault. fault ≡ RenewFault.NoRoom → renewal_fault self.old settings ≡ None) }
        ensures room { IfErr result (λ fault. fault ≡ RenewFault.NoRoom → settings.services ≢ []) }
        ensures unchanged { OnErr result (self.new ≡ self.old) }
    {
        if let Some(fault) = self.renewal_fault(&settings) {
            return Err(fault);
        }
        let Ok(states) = self.states_for(settings.services()) else {
            return Err(RenewFault::NoRoom);
        };
        self.settings = settings;
        self.states = states;
        Ok(())
    }

    /// Returns the first fault against other settings, or `None`. Without one, only lack of memory can refuse them.
    pub fn renewal_fault(&self, settings: &Settings) -> Option<RenewFault>
        ensures value { result ≡ renewal_fault self.now settings.now }
        ensures other { IfSome result (λ fault. fault ≢ RenewFault.NoRoom) }
    {
        if settings.slots() < self.settings.slots() {
            return Some(RenewFault::FewerSlots);
        }
        if u32::from(self.slots.first()) + settings.slots() > 1024 {
            return Some(RenewFault::OutOfRange);
        }
        match self.left_out(settings.services()) {
            Some(place) => Some(RenewFault::StillUp(place)),
            None => None,
        }
    }

    // Returns the index of the first service that runs or waits and isn't among the new ones.
    fn left_out(&self, new: &Services) -> Option<usize>
        ensures { result ≡ first_left_out new.now 0 self.now.settings.services self.now.states }
    {
        first_left_out(new, self.settings.services(), self.states.as_slice())
    }

    // Returns the states of the new services, by their labels. Takes no memory for none.
    fn states_for(&self, new: &Services) -> Result<Vec<State>, NoRoom>
        ensures states { IfOk result (λ states. states.items ≡ map (λ service. state_of_label self.now service.label) new.now) }
        ensures room { OnErr result (new.now ≢ []) }
    {
        let mut states = Vec::new(self.alloc);
        for i in 0..new.len() {
            let Some(service) = new.get(i) else {
                unreachable!()
            };
            states.push(self.state_or_down(&service.label))?;
        }
        Ok(states)
    }

    // Returns the state of the service with the label, or that it is down if there is no such service.
    fn state_or_down(&self, label: &Name) -> State
        ensures { result ≡ state_of_label self.now label.now }
    {
        match self.state(label) {
            Some(state) => state,
            None => State::Down,
        }
    }
}

// Returns whether the service runs, or waits for its next start.
fn is_begun(state: &State) -> bool
    ensures { result ≡ is_begun state.now }
{
    match state {
        State::Up(_) | State::Waiting(_) => true,
        State::Down | State::GaveUp => false,
    }
}

// Returns whether one of the services has the label.
fn has_label(services: &Services, label: &Name) -> bool
    ensures { result ≡ has_label services.now label.now }
{
    for i in 0..services.len() {
        let Some(service) = services.get(i) else {
            unreachable!()
        };
        if service.label == *label {
            return true;
        }
    }
    false
}

// Returns whether the service runs or waits, and none of the new ones has its label.
fn is_left_out(new: &Services, service: &Service, state: &State) -> bool
    ensures { result ≡ is_left_out new.now service.now state.now }
{
    is_begun(state) && !has_label(new, &service.label)
}

// Returns the index of the first service that is left out.
fn first_left_out(new: &Services, services: &Services, states: &[State]) -> Option<usize>
    requires { length states.now ≡ length services.now }
    ensures { result ≡ first_left_out new.now 0 services.now states.now }
{
    for (i, state) in states.iter().enumerate() {
        let Some(service) = services.get(i) else {
            unreachable!()
        };
        if is_left_out(new, service, state) {
            return Some(i);
        }
    }
    None
}
