//! Copies of events.

ghost use Rattle.std.specs.Prelude.{◌≡◌, IfOk};

use crate::event::SystemEvent;
use ds_names::NoRoom;
use std::alloc::Global;

pub(crate) fn event_again(alloc: Global, event: &SystemEvent) -> Result<SystemEvent, NoRoom>
    ensures { IfOk result (λ copy. copy ≡ event.now) }
{
    match event {
        SystemEvent::Service { event, tick, side } => Ok(SystemEvent::Service {
            event: *event,
            tick: *tick,
            side: *side,
        }),
        SystemEvent::Put {
            label,
            key,
            value,
            side,
        } => Ok(SystemEvent::Put {
            label: *label,
            key: *key,
            value: value.copy(alloc)?,
            side: *side,
        }),
        SystemEvent::Remove { label, key, side } => Ok(SystemEvent::Remove {
            label: *label,
            key: *key,
            side: *side,
        }),
        SystemEvent::Again { change, side } => Ok(SystemEvent::Again {
            change: *change,
            side: *side,
        }),
        SystemEvent::World(event) => Ok(SystemEvent::World(event.copy(alloc)?)),
        SystemEvent::Follow => Ok(SystemEvent::Follow),
        SystemEvent::Submit { table, id, unit } => Ok(SystemEvent::Submit {
            table: *table,
            id: *id,
            unit: *unit,
        }),
        SystemEvent::Answered {
            table,
            endpoint,
            id,
        } => Ok(SystemEvent::Answered {
            table: *table,
            endpoint: *endpoint,
            id: *id,
        }),
    }
}
