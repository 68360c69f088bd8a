//! Readers of the rest of a line with a scope, one for each word.

#![tactic(auto, unfolding(crate::specs::Row::TakesRow))]

ghost use Rattle.script_commands.specs.Row.{TakesRow};
ghost use Rattle.script_commands.specs.declared.word.Word.TheVariants as words;

use crate::command::ScriptCommand;
use crate::pieces::Rest;
use crate::scope::scope_of;
use ds_feed::Cursor;
use ds_line::{Expected, PartFault};
use ds_machine::Command;
use std::alloc::Global;

pub(crate) fn since_at(alloc: Global, rest: &mut Rest) -> Result<ScriptCommand, PartFault>
    ensures { TakesRow words.Since rest.old.bytes.now result }
{
    let (text, kinds) = match rest.scope() {
        Ok(written) => written,
        Err(stop) => return Err(stop),
    };
    let incarnation = rest.place(Expected::Incarnation)?;
    let position = rest.place(Expected::Position)?;
    let max = rest.number(Expected::Max)?;
    rest.end()?;
    let Ok(scope) = scope_of(alloc, text, kinds) else {
        return Err(PartFault::NoRoom);
    };
    let cursor = Cursor {
        incarnation,
        position,
    };
    Ok(ScriptCommand::Store(Command::Since { scope, cursor, max }))
}

pub(crate) fn snapshot_at(alloc: Global, rest: &mut Rest) -> Result<ScriptCommand, PartFault>
    ensures { TakesRow words.Snapshot rest.old.bytes.now result }
{
    let (text, kinds) = match rest.scope() {
        Ok(written) => written,
        Err(stop) => return Err(stop),
    };
    rest.end()?;
    let Ok(scope) = scope_of(alloc, text, kinds) else {
        return Err(PartFault::NoRoom);
    };
    Ok(ScriptCommand::Store(Command::Snapshot { scope }))
}

pub(crate) fn page_at(alloc: Global, rest: &mut Rest) -> Result<ScriptCommand, PartFault>
    ensures { TakesRow words.Page rest.old.bytes.now result }
{
    let (text, kinds) = match rest.scope() {
        Ok(written) => written,
        Err(stop) => return Err(stop),
    };
    let (after, max) = rest.range()?;
    rest.end()?;
    let Ok(scope) = scope_of(alloc, text, kinds) else {
        return Err(PartFault::NoRoom);
    };
    Ok(ScriptCommand::Store(Command::Page { scope, after, max }))
}
