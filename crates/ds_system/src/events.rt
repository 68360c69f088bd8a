//! Lists of events.

ghost use Rattle.std.specs.Prelude.{◌≡◌, ◌≢◌, ◌++◌, ◌∷◌, [], length, slice_get, OnOk, IfErr, OnErr, IfOk};
ghost use Rattle.std.specs.Option.{option_copied};

use crate::copying::event_again;
use crate::event::SystemEvent;
use ds_names::NoRoom;
use std::alloc::{AllocFailed, Global};
use std::marker::Model;

/// A system's events, in the order in which they happen.
#[derive(Drop)]
pub struct SystemEvents {
    events: Vec<SystemEvent>,
}

impl Model for SystemEvents {
    ghost use Rattle.std.specs.Prelude.{List};
    ghost use Rattle.ds_system.specs.declared.event.SystemEvent.{SystemEvent};

    ghost Value = { List SystemEvent };

    ghost view = { λ e. e.events.items };
}

impl SystemEvents {
    /// Returns an empty list. It takes no memory.
    pub fn new(alloc: Global) -> SystemEvents
        ensures { result ≡ [] }
    {
        SystemEvents {
            events: Vec::new(alloc),
        }
    }

    /// Returns the `Vec`. It takes no memory.
    pub(crate) fn into_list(self) -> Vec<SystemEvent>
        ensures { result.items ≡ self }
    {
        self.events
    }

    /// Appends an event. If memory runs out, the list is unchanged and the error hands the event back.
    pub fn push(&mut self, event: SystemEvent) -> Result<(), AllocFailed<SystemEvent>>
        ensures ok { OnOk result (self.new ≡ self.old ++ event ∷ []) }
        ensures err { OnErr result (self.new ≡ self.old) }
        ensures back { IfErr result (λ back. back.value ≡ event) }
    {
        self.events.push(event)
    }

    /// Returns the number of events.
    pub fn len(&self) -> usize
        ensures { result ≡ length self.now }
    {
        self.events.len()
    }

    /// Returns the event at an index from 0; `None` past the end.
    pub fn get(&self, index: usize) -> Option<&SystemEvent>
        ensures { option_copied result ≡ slice_get self.now index }
    {
        self.events.get(index)
    }

    /// Returns a copy. A copy of no events takes no memory.
    pub fn copy(&self, alloc: Global) -> Result<SystemEvents, NoRoom>
        ensures same { IfOk result (λ copy. copy ≡ self.now) }
        ensures room { OnErr result (self.now ≢ []) }
    {
        let mut events = Vec::new(alloc);
        for event in &self.events {
            events.push(event_again(alloc, event)?)?;
        }
        Ok(SystemEvents { events })
    }
}
