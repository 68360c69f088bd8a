//! Services of the settings.
ghost use Rattle.std.specs.Prelude.{◌≡◌, ◌≢◌, ◌⊎◌, [], IfOk, OnErr};
ghost use Rattle.rs_settings.specs.Dealing.{HasNames, is_declared, is_listed, may_complain, may_connect};

use crate::class::Class;
use crate::names::Names;
use ds_names::{Key, Kind, Name, NoRoom};
use std::alloc::Global;

/// A service of RS's settings.
#[derive(Drop)]
pub struct Service {
    /// The service's name, never `rs`.
    pub label: Name,
    pub class: Class,
    /// The major number of a block or character service, or the port of a network service. A server has none.
    pub unit: Option<u8>,
    /// Ticks from one ping to the next, 0 to 1000000; 0 for no pings.
    pub period: u32,
    /// How many failures in a row RS answers by a restart, 0 to 1000.
    pub limit: u32,
    /// The names that it may publish, at most 64.
    pub publishes: Names,
    /// The labels of the services that it may complain of, at most 64; without a list, see `may_complain`.
    pub complains: Option<Names>,
    /// The labels of the services that it may connect to, at most 64; without a list, all.
    pub connects: Option<Names>,
    /// After how many ticks of one instance earlier failures no longer count, 0 to 1000000000; 0 for never.
    pub forget: u32,
    /// How many ticks an instance has to start, 0 to 1000000. Its first heartbeat period counts from then on, or from an
    /// earlier heartbeat.
    pub startup: u32,
}

impl Service {
    /// Returns whether the service may publish under the key: `publishes` has the key's name, and the kind isn't a label.
    pub fn declares(&self, key: &Key) -> bool
        ensures { result ≡ is_declared self.now key.now }
    {
        key.kind != Kind::Label && self.publishes.has(&key.name)
    }

    /// Returns whether the service may complain of another one: `complains` has the other one's label. Without such a
    /// list, a server may complain of every service that isn't a server.
    pub fn may_complain(&self, other: &Service) -> bool
        ensures { result ≡ may_complain self.now other.now }
    {
        let unlisted = self.class.is_server() && !other.class.is_server();
        is_listed(unlisted, &self.complains, &other.label)
    }

    /// Returns whether the service may connect to another one: `connects` has the other one's label, or there is no
    /// such list.
    pub fn may_connect(&self, other: &Service) -> bool
        ensures { result ≡ may_connect self.now other.now }
    {
        is_listed(true, &self.connects, &other.label)
    }

    /// Returns a copy. Fails only if memory runs out; only the names in its lists take memory.
    pub fn copy(&self, alloc: Global) -> Result<Service, NoRoom>
        ensures same { IfOk result (λ service. service ≡ self.now) }
        ensures room { OnErr result ((self.now.publishes ≢ []) ⊎ (HasNames self.now.complains ⊎ HasNames self.now.connects)) }
    {
        Ok(Service {
            label: self.label,
            class: self.class,
            unit: self.unit,
            period: self.period,
            limit: self.limit,
            publishes: self.publishes.copy(alloc)?,
            complains: copy_if(alloc, &self.complains)?,
            connects: copy_if(alloc, &self.connects)?,
            forget: self.forget,
            startup: self.startup,
        })
    }
}

// Returns whether a label is listed, or `unlisted` without a list.
fn is_listed(unlisted: bool, labels: &Option<Names>, label: &Name) -> bool
    ensures { result ≡ is_listed unlisted labels.now label.now }
{
    match labels {
        Some(labels) => labels.has(label),
        None => unlisted,
    }
}

// Returns a copy of a list, if there is one.
fn copy_if(alloc: Global, labels: &Option<Names>) -> Result<Option<Names>, NoRoom>
    ensures same { IfOk result (λ copy. copy ≡ labels.now) }
    ensures room { OnErr result (HasNames labels.now) }
{
    match labels {
        Some(labels) => Ok(Some(labels.copy(alloc)?)),
        None => Ok(None),
    }
}
