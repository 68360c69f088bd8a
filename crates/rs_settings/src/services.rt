//! Lists of services of the settings.

ghost use Rattle.std.specs.Prelude.{◌≡◌, ◌≢◌, ◌++◌, ◌∷◌, [], length, slice_get, OnOk, IfErr, OnErr, IfOk};
ghost use Rattle.std.specs.Option.{option_copied};

use crate::service::Service;
use ds_names::NoRoom;
use std::alloc::{AllocFailed, Global};
use std::marker::Model;

/// A list of services.
#[derive(Drop)]
pub struct Services {
    services: Vec<Service>,
}

impl Model for Services {
    ghost use Rattle.std.specs.Prelude.{List};
    ghost use Rattle.rs_settings.specs.declared.service.Service.{Service};

    ghost Value = { List Service };

    ghost view = { λ a. a.services.items };
}

impl Services {
    /// Returns an empty list. Takes no memory.
    pub fn new(alloc: Global) -> Services
        ensures { result ≡ [] }
    {
        Services {
            services: Vec::new(alloc),
        }
    }

    /// Appends a service. If memory runs out, the list is unchanged and the error hands the service back.
    pub fn push(&mut self, service: Service) -> Result<(), AllocFailed<Service>>
        ensures ok { OnOk result (self.new ≡ self.old ++ service ∷ []) }
        ensures err { OnErr result (self.new ≡ self.old) }
        ensures back { IfErr result (λ back. back.value ≡ service) }
    {
        self.services.push(service)
    }

    /// Returns the number of services.
    pub fn len(&self) -> usize
        ensures { result ≡ length self.now }
    {
        self.services.len()
    }

    /// Returns the service at an index from 0, or `None` past the end.
    pub fn get(&self, index: usize) -> Option<&Service>
        ensures { option_copied result ≡ slice_get self.now index }
    {
        self.services.get(index)
    }

    /// Returns a copy, in the same order. Fails only if memory runs out; the copy of an empty list takes none.
    pub fn copy(&self, alloc: Global) -> Result<Services, NoRoom>
        ensures same { IfOk result (λ services. services ≡ self.now) }
        ensures room { OnErr result (self.now ≢ []) }
    {
        let mut services = Vec::new(alloc);
        for service in &self.services {
            services.push(service.copy(alloc)?)?;
        }
        Ok(Services { services })
    }
}
