//! Commands to the store.

use ds_entry::Value;
use ds_machine::Command;
use ds_names::{Endpoint, Generation, Key, Kind, Kinds, Name, Version};
use ds_pattern::{PatternText, Query};
use std::alloc::Global;

/// A driver as RS started it: its label, and the endpoint of its process.
#[derive(Clone, Copy)]
pub(crate) struct Driver {
    label: Name,
    endpoint: Endpoint,
}

impl Driver {
    /// Returns the driver `eth0` in this generation and process slot. `None` if the numbers aren't an endpoint's.
    pub(crate) fn eth0(generation: u32, slot: u16) -> Option<Driver> {
        Some(Driver {
            label: Name::read(b"eth0").ok()?,
            endpoint: Endpoint::of(Generation::of(generation)?, slot)?,
        })
    }

    /// Returns RS's command that publishes its label, over that of an earlier generation.
    pub(crate) fn started(&self) -> Command {
        Command::Publish {
            caller: Endpoint::rs(),
            key: Key {
                name: self.label,
                kind: Kind::Label,
            },
            version: self.version(),
            value: Value::Label(self.endpoint),
            overwrite: true,
        }
    }

    /// Returns its command that publishes its MTU, the first number that it publishes.
    pub(crate) fn publishes_mtu(&self, bytes: u32) -> Option<Command> {
        Some(Command::Publish {
            caller: self.endpoint,
            key: Key {
                name: Name::read(b"eth0.mtu").ok()?,
                kind: Kind::U32,
            },
            version: self.version(),
            value: Value::U32(bytes),
            overwrite: false,
        })
    }

    /// Returns RS's command that sweeps everything the driver left, up to this generation.
    pub(crate) fn died(&self) -> Command {
        Command::Sweep {
            caller: Endpoint::rs(),
            owner: self.label,
            generation: self.endpoint.generation(),
        }
    }

    // Returns the first version of its generation.
    fn version(&self) -> Version {
        Version {
            epoch: self.endpoint.generation(),
            seq: 0,
        }
    }
}

/// Returns the query of all labels and numbers whose names begin with `eth0`. `None` if out of memory.
pub(crate) fn eth0_and_below(alloc: Global) -> Option<Query> {
    Some(Query {
        text: PatternText::of(alloc, br"eth0.*").ok()?,
        kinds: Kinds::of(3)?,
    })
}
