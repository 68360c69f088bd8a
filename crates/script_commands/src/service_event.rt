//! The RS event of a line.

ghost use Rattle.std.specs.Prelude.{◌≡◌};
ghost use Rattle.script_commands.specs.ServiceEvent.{request_event, service_event_of};

use crate::command::ScriptCommand;
use crate::service::Request;
use ds_names::Name;
use rs_core::Event;

impl ScriptCommand {
    /// Returns the line's event for RS, with its tick. `None` unless it is a `service`, `death`, `beat` or `tick` line.
    pub fn service_event(&self) -> Option<(Event, u64)>
        ensures { result ≡ service_event_of self.now }
    {
        match self {
            ScriptCommand::Service {
                request,
                label,
                tick,
            } => Some((request_event(*request, *label), *tick)),
            ScriptCommand::Death {
                endpoint,
                cause,
                tick,
            } => Some((Event::Death(*endpoint, *cause), *tick)),
            ScriptCommand::Beat { endpoint, tick } => Some((Event::Beat(*endpoint), *tick)),
            ScriptCommand::Tick { tick } => Some((Event::Tick, *tick)),
            _ => None,
        }
    }
}

fn request_event(request: Request, label: Name) -> Event
    ensures { result ≡ request_event request label }
{
    match request {
        Request::Up => Event::Up(label),
        Request::Down => Event::Stop(label),
        Request::Refresh => Event::Refresh(label),
        Request::Restart => Event::Restart(label),
    }
}
