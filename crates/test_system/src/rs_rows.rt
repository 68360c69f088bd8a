//! A copy of settings, and the newest generation that a table knows of a label, with enough memory.
//!
//! A contract can't say that memory is available, so a copy that is always refused could be proved. This copy is made
//! by no other line.

use crate::words::tell_numbers;
use driver_tables::{FileClass, FileTable};
use ds_names::{Endpoint, Generation, Name, NoRoom};
use rs_settings::{Names, Services, Settings, read};
use std::alloc::Global;

const ETH0: &[u8] =
    b"slots = 32\nservice = [{label = \"eth0\", class = \"network\", unit = 7, limit = 3, publishes = [\"mtu\", \"mac\"]}]";

/// Appends what is in the copy, and the generation of a label. NoRoom: out of memory for a row.
pub(crate) fn tell_rows(text: &mut Vec<u8>, alloc: Global) -> Result<(), NoRoom> {
    let rows = [
        ("settings: slots ", settings_row(alloc)),
        ("newest: ", newest_row(alloc)),
    ];
    for (word, row) in rows {
        let Some(number) = row else {
            return Err(NoRoom);
        };
        tell_numbers(text, &[(word, number)])?;
    }
    Ok(())
}

fn settings_row(alloc: Global) -> Option<u64> {
    let settings = read(alloc, ETH0).ok()?;
    match settings.copy(alloc) {
        Ok(copy) => slots_of(alloc, &copy),
        Err(_) => None,
    }
}

// Returns how many slots there are, if the first service, in a new list, publishes two names, in a new list too.
fn slots_of(alloc: Global, settings: &Settings) -> Option<u64> {
    let mut services = Services::new(alloc);
    services
        .push(settings.services().get(0)?.copy(alloc).ok()?)
        .ok()?;
    let names = names_again(alloc, &services.get(0)?.publishes)?;
    (names.len() == 2).then_some(u64::from(settings.slots()))
}

fn names_again(alloc: Global, names: &Names) -> Option<Names> {
    let mut again = Names::new(alloc);
    for index in 0..names.len() {
        again.push(*names.get(index)?).ok()?;
    }
    Some(again)
}

fn newest_row(alloc: Global) -> Option<u64> {
    let mut table = FileTable::new(alloc);
    newest_in(&mut table)
}

// Returns the greatest generation that a table knows of a label whose driver ended, if it refuses an older one.
fn newest_in(table: &mut FileTable) -> Option<u64> {
    let disk = Name::read(b"disk").ok()?;
    table.assign(3, FileClass::Block, &disk).ok()?;
    for state in [endpoint_of(2), None] {
        table.changed(&disk, state).ok()?;
    }
    match table.changed(&disk, endpoint_of(1)) {
        Ok(_) => None,
        Err(_) => Some(u64::from(table.newest(&disk)?.number())),
    }
}

fn endpoint_of(generation: u32) -> Option<Endpoint> {
    Endpoint::of(Generation::of(generation)?, 16)
}
