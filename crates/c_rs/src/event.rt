//! Events of RS by structs.

ghost use Rattle.std.specs.Prelude.{◌≡◌};
ghost use Rattle.c_store.specs.Called.{RestsForNone};
ghost use Rattle.c_rs.specs.Serving.{SessionDoes};
ghost use Rattle.c_rs.specs.Event.{ServesEvent, event_of, of_instance, of_label};

use crate::session::RsSession;
use c_values::{Answer, endpoint, name_in};
use rs_core::Event;

/// An event, as C has it.
#[repr(C)]
#[derive(Clone, Copy)]
pub struct RsEvent {
    pub tick: u64,
    /// 0 up, 1 down, 2 refresh, 3 restart, 4 death, 5 beat, 6 tick.
    pub kind: u32,
    /// The cause of a death.
    pub cause: u32,
    /// With `slot`, the endpoint of the instance that died or is alive.
    pub generation: u32,
    pub slot: u16,
    /// How many bytes the label has.
    pub label_length: u8,
    pub label: [u8; 64],
}

impl RsSession {
    /// Reports the event of a struct to RS, and passes the label changes and the sweeps of its actions to the store. Answers
    /// NoRequest, and changes nothing, if the struct stands for no event.
    pub fn serve_event(&mut self, event: &RsEvent, answer: &mut Answer)
        ensures { ServesEvent event.now self.old answer.new self.new }
    {
        match event_of(event) {
            Some(what) => self.serve(what, event.tick, answer),
            None => self.decline(answer),
        }
    }

    /// Answers a struct that stands for no event. Nothing changes.
    pub fn decline(&mut self, answer: &mut Answer)
        ensures { SessionDoes RestsForNone self.old answer.new self.new }
    {
        self.told = None;
        self.session.rest(Answer::no_request(), answer);
    }
}

/// Returns the event that a struct stands for.
#[tactic(auto, unfolding(crate::specs::Event::event_of))]
pub fn event_of(event: &RsEvent) -> Option<Event>
    ensures { result ≡ event_of event.now }
{
    match event.kind {
        0..=3 => of_label(event),
        4..=5 => of_instance(event),
        6 => Some(Event::Tick),
        _ => None,
    }
}

// Returns the event of a kind, 0 to 3, and a label; `None` if the label isn't a name.
#[tactic(auto, unfolding(crate::specs::Event::of_label))]
fn of_label(event: &RsEvent) -> Option<Event>
    ensures { result ≡ of_label event.now }
{
    let label = name_in(&event.label, event.label_length)?;
    match event.kind {
        0 => Some(Event::Up(label)),
        1 => Some(Event::Stop(label)),
        2 => Some(Event::Refresh(label)),
        _ => Some(Event::Restart(label)),
    }
}

// Returns the event of a kind, 4 or 5, and an instance; `None` if its endpoint is out of range.
#[tactic(auto, unfolding(crate::specs::Event::of_instance))]
fn of_instance(event: &RsEvent) -> Option<Event>
    ensures { result ≡ of_instance event.now }
{
    let instance = endpoint(event.generation, event.slot)?;
    match event.kind {
        4 => Some(Event::Death(instance, u64::from(event.cause))),
        _ => Some(Event::Beat(instance)),
    }
}
