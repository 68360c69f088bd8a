//! Services, as C has them.

ghost use Rattle.std.specs.Prelude.{◌≡◌};
ghost use Rattle.c_rs.specs.Service.{class_number, service_row, told_service, with_settings};

use crate::action::block_of;
use crate::session::RsSession;
use rs_core::State;
use rs_settings::{Class, Service};

/// What RS knows of a service. A part that the state doesn't have is 0.
#[repr(C)]
#[derive(Clone, Copy)]
pub struct RsService {
    /// The tick of the next start, if the service waits.
    pub until: u64,
    /// From 0: down, up, waiting, given up.
    pub state: u32,
    /// With `slot`, the endpoint of the instance, if the service is up.
    pub generation: u32,
    /// How many failures in a row, if the service is up or waits.
    pub failures: u32,
    /// The settings: the ticks from one ping to the next, and the limit of failures.
    pub period: u32,
    pub limit: u32,
    pub slot: u16,
    /// From 0: block, character, network, server.
    pub service_class: u8,
    /// 1 if the service has a unit.
    pub has_unit: u8,
    pub unit: u8,
    /// How many bytes the label has.
    pub label_length: u8,
    pub label: [u8; 64],
}

impl RsSession {
    /// Returns what RS knows of the service at an index of the settings, from 0. `None` past the end, or if RS isn't open.
    pub fn service(&self, index: usize) -> Option<RsService>
        ensures { result ≡ service_row self.now.session.node.services index }
    {
        let Some(rs) = self.session.node.services() else {
            return None;
        };
        let service = rs.settings().services().get(index)?;
        let state = rs.state_of(index)?;
        Some(told_service(service, state))
    }
}

// Returns the struct of a service in a state.
fn told_service(service: &Service, state: State) -> RsService
    ensures { result ≡ told_service service.now state }
{
    let told = with_settings(service);
    match state {
        State::Down => told,
        State::Up(running) => RsService {
            state: 1,
            generation: running.endpoint.generation().number(),
            slot: running.endpoint.slot(),
            failures: running.failures,
            ..told
        },
        State::Waiting(pause) => RsService {
            state: 2,
            until: pause.until,
            failures: pause.failures,
            ..told
        },
        State::GaveUp => RsService { state: 3, ..told },
    }
}

// Returns the struct of a service, with zeros for its state.
fn with_settings(service: &Service) -> RsService
    ensures { result ≡ with_settings service.now }
{
    let (has_unit, unit) = match service.unit {
        Some(unit) => (1, unit),
        None => (0, 0),
    };
    RsService {
        until: 0,
        state: 0,
        generation: 0,
        failures: 0,
        period: service.period,
        limit: service.limit,
        slot: 0,
        service_class: class_number(service.class),
        has_unit,
        unit,
        label_length: service.label.bytes().len() as u8,
        label: block_of(&service.label),
    }
}

fn class_number(class: Class) -> u8
    ensures { result ≡ class_number class }
{
    match class {
        Class::Block => 0,
        Class::Character => 1,
        Class::Network => 2,
        Class::Server => 3,
    }
}
