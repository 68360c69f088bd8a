//! Lists of events.

ghost use Rattle.std.specs.Prelude.{◌≡◌, ◌≢◌, ◌++◌, ◌∷◌, [], length, slice_get, OnOk, IfErr, OnErr, IfOk};
ghost use Rattle.std.specs.Option.{option_copied};

use ds_names::NoRoom;
use ds_replica::Event;
use std::alloc::{AllocFailed, Global};
use std::marker::Model;

/// Events in the order in which they are to happen.
#[derive(Drop)]
pub struct Events {
    events: Vec<Event>,
}

impl Model for Events {
    ghost use Rattle.std.specs.Prelude.{List};
    ghost use Rattle.ds_replica.specs.declared.event.Event.{Event};

    ghost Value = { List Event };

    ghost view = { λ e. e.events.items };
}

impl Events {
    /// Returns an empty list. Takes no memory.
    pub fn new(alloc: Global) -> Events
        ensures { result ≡ [] }
    {
        Events {
            events: Vec::new(alloc),
        }
    }

    /// Returns the events as a `Vec`. Takes no memory.
    pub fn into_list(self) -> Vec<Event>
        ensures { result.items ≡ self }
    {
        self.events
    }

    /// Appends an event. If memory runs out, the list is unchanged and the error hands the event back.
    pub fn push(&mut self, event: Event) -> Result<(), AllocFailed<Event>>
        ensures ok { OnOk result (self.new ≡ self.old ++ event ∷ []) }
        ensures err { OnErr result (self.new ≡ self.old) }
        ensures back { IfErr result (λ back. back.value ≡ event) }
    {
        self.events.push(event)
    }

    /// Returns how many events there are.
    pub fn len(&self) -> usize
        ensures { result ≡ length self.now }
    {
        self.events.len()
    }

    /// Returns the event at an index from 0, or `None` past the end.
    pub fn get(&self, index: usize) -> Option<&Event>
        ensures { option_copied result ≡ slice_get self.now index }
    {
        self.events.get(index)
    }

    /// Returns a copy. A copy of no events takes no memory.
    pub fn copy(&self, alloc: Global) -> Result<Events, NoRoom>
        ensures same { IfOk result (λ copy. copy ≡ self.now) }
        ensures room { OnErr result (self.now ≢ []) }
    {
        let mut events = Vec::new(alloc);
        for event in &self.events {
            events.push(event.copy(alloc)?)?;
        }
        Ok(Events { events })
    }
}
