//! Commands that a store runs at once. No line spells the last one.

use crate::keys::version;
use crate::telling::tell;
use ds_entry::Value;
use ds_held::Limits;
use ds_machine::{Command, Reply};
use ds_names::{Endpoint, Key, Kind, Name, Version};
use ds_store::{Store, run};
use script_answers::{Wording, append_reply};
use std::alloc::Global;

/// Writes the reply to each of four commands that a new store runs at once. `None` if out of memory.
pub(crate) fn tell_rows(text: &mut Vec<u8>, alloc: Global) -> Option<()> {
    tell(text, &[b"four commands of a store at once\n"])?;
    let mut store = Store::open(alloc, 7, 0, 256).ok()?;
    let mut commands = Vec::new(alloc);
    add_commands(&mut commands)?;
    let replies = run(alloc, &mut store, commands).ok()?;
    tell_replies(text, replies.as_slice())
}

// RS starts `eth0`, which publishes a number, and is swept; then RS publishes a number under the key of a string.
fn add_commands(commands: &mut Vec<Command>) -> Option<()> {
    let started = version(3, 0)?;
    let eth0 = Endpoint::of(started.epoch, 17)?;
    let last = version(0, u32::MAX)?;
    let label = publish(
        Endpoint::rs(),
        b"eth0",
        Kind::Label,
        started,
        Value::Label(eth0),
    )?;
    commands.push(label).ok()?;
    let number = publish(eth0, b"mtu", Kind::U32, started, Value::U32(1500))?;
    commands.push(number).ok()?;
    commands.push(sweep(started)?).ok()?;
    let mismatch = publish(Endpoint::rs(), b"mtu", Kind::Str, last, Value::U32(1500))?;
    commands.push(mismatch).ok()
}

fn publish(
    caller: Endpoint,
    name: &[u8],
    kind: Kind,
    version: Version,
    value: Value,
) -> Option<Command> {
    let name = Name::read(name).ok()?;
    Some(Command::Publish {
        caller,
        key: Key { name, kind },
        version,
        value,
        overwrite: false,
    })
}

fn sweep(version: Version) -> Option<Command> {
    Some(Command::Sweep {
        caller: Endpoint::rs(),
        owner: Name::read(b"eth0").ok()?,
        generation: version.epoch,
    })
}

fn tell_replies(text: &mut Vec<u8>, replies: &[Reply]) -> Option<()> {
    for reply in replies {
        append_reply(text, Wording::AsMerge, reply, Limits::larger()).ok()?;
    }
    Some(())
}
