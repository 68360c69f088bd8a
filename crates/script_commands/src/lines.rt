//! Readers of the rest of a line, one for each command's word: `show_at` reads what follows `show`.
//!
//! Each reads the slots of its word, which specs/Table.antt lists, in order. It returns the command, or why the first bad slot can't be
//! read. A fault depends on the order of the reads.

#![tactic(auto, unfolding(crate::specs::Row::TakesRow))]

ghost use Rattle.ds_line.specs.declared.part_fault.PartFault.{PartFault as Fault};
ghost use Rattle.script_commands.specs.Fast.{OfPlaced, publish_read, retrieve_read};
ghost use Rattle.script_commands.specs.Row.{TakesRow};
ghost use Rattle.script_commands.specs.declared.word.Word.TheVariants as words;

use crate::command::ScriptCommand;
use crate::fast::Publication;
use crate::pieces::Rest;
use crate::query::query_of;
use ds_entry::Item;
use ds_line::{Expected, LineFault, PartFault, read_item_into, stop_at};
use ds_machine::Command;
use ds_names::{Key, read_byte};
use std::alloc::Global;

pub(crate) fn show_at(rest: &mut Rest) -> Result<ScriptCommand, PartFault>
    ensures { TakesRow words.Show rest.old.bytes.now result }
{
    rest.end()?;
    Ok(ScriptCommand::Show)
}

pub(crate) fn all_at(rest: &mut Rest) -> Result<ScriptCommand, PartFault>
    ensures { TakesRow words.All rest.old.bytes.now result }
{
    rest.end()?;
    Ok(ScriptCommand::All)
}

pub(crate) fn offer_at(alloc: Global, rest: &mut Rest) -> Result<ScriptCommand, PartFault>
    ensures { TakesRow words.Offer rest.old.bytes.now result }
{
    let mut slot = None;
    item_at(alloc, rest, &mut slot)?;
    match slot {
        Some(item) => Ok(ScriptCommand::Offer(item)),
        None => unreachable!(),
    }
}

/// Reads what follows `offer`, and writes the item to `slot`.
#[inline(always)]
pub(crate) fn item_at(
    alloc: Global,
    rest: &mut Rest,
    slot: &mut Option<Item>,
) -> Result<(), PartFault>
    ensures { OfPlaced Fault (TakesRow words.Offer rest.old.bytes.now) result slot.new }
{
    rest.expected = Expected::Space;
    let Some(text) = read_byte(rest.bytes, b' ') else {
        return Err(stop_at(rest.bytes));
    };
    match read_item_into(alloc, text, &mut rest.expected, slot) {
        Ok(_) => Ok(()),
        Err(LineFault::BadLine { place }) => {
            let left = text.len() - place;
            Err(PartFault::BadPart { left })
        }
        Err(LineFault::NoRoom) => Err(PartFault::NoRoom),
    }
}

pub(crate) fn publish_at(alloc: Global, rest: &mut Rest) -> Result<ScriptCommand, PartFault>
    ensures { TakesRow words.Publish rest.old.bytes.now result }
{
    let Publication {
        caller,
        key,
        version,
        value,
        overwrite,
    } = publication_at(alloc, rest)?;
    Ok(ScriptCommand::Store(Command::Publish {
        caller,
        key,
        version,
        value,
        overwrite,
    }))
}

/// Reads what follows `publish`, and returns its parts.
#[inline(always)]
pub(crate) fn publication_at(alloc: Global, rest: &mut Rest) -> Result<Publication, PartFault>
    ensures { TakesRow words.Publish rest.old.bytes.now (publish_read result) }
{
    let caller = rest.endpoint(Expected::Caller)?;
    let overwrite = rest.mode()?;
    let key = rest.key()?;
    let version = rest.version()?;
    let value = rest.value(alloc, key.kind)?;
    Ok(Publication {
        caller,
        key,
        version,
        value,
        overwrite,
    })
}

pub(crate) fn delete_at(rest: &mut Rest) -> Result<ScriptCommand, PartFault>
    ensures { TakesRow words.Delete rest.old.bytes.now result }
{
    let caller = rest.endpoint(Expected::Caller)?;
    let key = rest.key()?;
    let version = rest.version()?;
    rest.end()?;
    Ok(ScriptCommand::Store(Command::Delete {
        caller,
        key,
        version,
    }))
}

pub(crate) fn sweep_at(rest: &mut Rest) -> Result<ScriptCommand, PartFault>
    ensures { TakesRow words.Sweep rest.old.bytes.now result }
{
    let caller = rest.endpoint(Expected::Caller)?;
    let owner = rest.name(Expected::Owner)?;
    let generation = rest.generation(Expected::Generation)?;
    rest.end()?;
    Ok(ScriptCommand::Store(Command::Sweep {
        caller,
        owner,
        generation,
    }))
}

pub(crate) fn retrieve_at(rest: &mut Rest) -> Result<ScriptCommand, PartFault>
    ensures { TakesRow words.Retrieve rest.old.bytes.now result }
{
    let key = retrieved_at(rest)?;
    Ok(ScriptCommand::Store(Command::Retrieve { key }))
}

/// Reads what follows `retrieve`, and returns its key.
#[inline(always)]
pub(crate) fn retrieved_at(rest: &mut Rest) -> Result<Key, PartFault>
    ensures { TakesRow words.Retrieve rest.old.bytes.now (retrieve_read result) }
{
    let key = rest.key()?;
    rest.end()?;
    Ok(key)
}

pub(crate) fn nameof_at(rest: &mut Rest) -> Result<ScriptCommand, PartFault>
    ensures { TakesRow words.NameOf rest.old.bytes.now result }
{
    let endpoint = rest.endpoint(Expected::Endpoint)?;
    rest.end()?;
    Ok(ScriptCommand::Store(Command::NameOf { endpoint }))
}

pub(crate) fn subscribe_at(alloc: Global, rest: &mut Rest) -> Result<ScriptCommand, PartFault>
    ensures { TakesRow words.Subscribe rest.old.bytes.now result }
{
    let sub = rest.number(Expected::Sub)?;
    let text = rest.pattern()?;
    let kinds = rest.kinds()?;
    let initial = rest.initial()?;
    let overwrite = rest.mode()?;
    rest.end()?;
    let Ok(query) = query_of(alloc, text, kinds) else {
        return Err(PartFault::NoRoom);
    };
    Ok(ScriptCommand::Store(Command::Subscribe {
        sub,
        query,
        initial,
        overwrite,
    }))
}

pub(crate) fn check_at(rest: &mut Rest) -> Result<ScriptCommand, PartFault>
    ensures { TakesRow words.Check rest.old.bytes.now result }
{
    let sub = rest.number(Expected::Sub)?;
    let max = rest.number(Expected::Max)?;
    rest.end()?;
    Ok(ScriptCommand::Store(Command::Check { sub, max }))
}

pub(crate) fn map_at(alloc: Global, rest: &mut Rest) -> Result<ScriptCommand, PartFault>
    ensures { TakesRow words.Map rest.old.bytes.now result }
{
    let text = rest.pattern()?;
    let kinds = rest.kinds()?;
    rest.end()?;
    let Ok(query) = query_of(alloc, text, kinds) else {
        return Err(PartFault::NoRoom);
    };
    Ok(ScriptCommand::Map { query })
}

pub(crate) fn entries_at(rest: &mut Rest) -> Result<ScriptCommand, PartFault>
    ensures { TakesRow words.Entries rest.old.bytes.now result }
{
    let map = rest.place(Expected::Map)?;
    rest.end()?;
    Ok(ScriptCommand::Entries { map })
}
