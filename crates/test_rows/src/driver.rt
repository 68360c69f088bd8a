//! The driver `eth0` of generation 3, which publishes while a service reads.

use crate::keys::{number_key, version};
use ds_entry::Value;
use ds_machine::{Command, Reply};
use ds_names::{Endpoint, Generation, Key, Name, Version};
use ds_reader::Others;
use ds_store::Store;

/// The driver, with the numbers that it has yet to publish, one each time it is its turn.
#[derive(Drop)]
pub(crate) struct Driver {
    endpoint: Endpoint,
    version: Version,
    /// The keys of the next numbers, in order.
    next: Option<Key>,
    second: Option<Key>,
    third: Option<Key>,
    /// Whether one of its numbers was refused.
    pub is_refused: bool,
}

impl Others for Driver {
    fn ask(&mut self, store: &mut Store) {
        let next = self.next;
        self.next = self.second;
        self.second = self.third;
        self.third = None;
        if let Some(key) = next {
            let reply = store.apply(Command::Publish {
                caller: self.endpoint,
                key,
                version: self.version,
                value: Value::U32(1500),
                overwrite: true,
            });
            self.is_refused |= matches!(reply, Reply::Refused(_));
        }
    }
}

/// Returns the version the driver publishes with.
pub(crate) fn first_version() -> Option<Version> {
    version(3, 0)
}

/// Returns the endpoint of `eth0` in generation 3.
pub(crate) fn endpoint() -> Option<Endpoint> {
    Endpoint::of(Generation::of(3)?, 17)
}

/// Returns a driver that will publish `eth0.c`, `eth0.d` and `eth0.e`.
pub(crate) fn eth0(endpoint: Endpoint, version: Version) -> Driver {
    Driver {
        endpoint,
        version,
        next: number_key(b"eth0.c"),
        second: number_key(b"eth0.d"),
        third: number_key(b"eth0.e"),
        is_refused: false,
    }
}

// Applies a command. `None` if it is refused.
fn change(store: &mut Store, command: Command) -> Option<()> {
    match store.apply(command) {
        Reply::Refused(_) => None,
        _ => Some(()),
    }
}

fn publish(store: &mut Store, caller: Endpoint, text: &[u8], value: Value) -> Option<()> {
    let name = Name::read(text).ok()?;
    let version = first_version()?;
    let key = Key {
        name,
        kind: value.kind(),
    };
    change(
        store,
        Command::Publish {
            caller,
            key,
            version,
            value,
            overwrite: false,
        },
    )
}

/// Prepares the store: RS sweeps what generation 2 left and starts generation 3, which publishes `eth0.a` and `eth0.b`.
pub(crate) fn begin(store: &mut Store) -> Option<()> {
    let owner = Name::read(b"eth0").ok()?;
    let generation = Generation::of(2)?;
    let caller = endpoint()?;
    change(
        store,
        Command::Sweep {
            caller: Endpoint::rs(),
            owner,
            generation,
        },
    )?;
    publish(store, Endpoint::rs(), b"eth0", Value::Label(caller))?;
    publish(store, caller, b"eth0.a", Value::U32(1))?;
    publish(store, caller, b"eth0.b", Value::U32(2))
}
