//! Readers of the rest of a line for RS, one for each word.

#![tactic(auto, unfolding(crate::specs::Row::TakesRow))]

ghost use Rattle.script_commands.specs.Row.{TakesRow};
ghost use Rattle.script_commands.specs.declared.word.Word.TheVariants as words;

use crate::command::ScriptCommand;
use crate::pieces::Rest;
use crate::settings_text::SettingsText;
use ds_line::{Expected, PartFault};
use std::alloc::Global;

pub(crate) fn settings_at(alloc: Global, rest: &mut Rest) -> Result<ScriptCommand, PartFault>
    ensures { TakesRow words.Settings rest.old.bytes.now result }
{
    let text = rest.text()?;
    let Ok(text) = SettingsText::of(alloc, text) else {
        return Err(PartFault::NoRoom);
    };
    Ok(ScriptCommand::Settings { text })
}

pub(crate) fn service_at(rest: &mut Rest) -> Result<ScriptCommand, PartFault>
    ensures { TakesRow words.Service rest.old.bytes.now result }
{
    let request = rest.request()?;
    let label = rest.name(Expected::Label)?;
    let tick = rest.place(Expected::Tick)?;
    rest.end()?;
    Ok(ScriptCommand::Service {
        request,
        label,
        tick,
    })
}

pub(crate) fn death_at(rest: &mut Rest) -> Result<ScriptCommand, PartFault>
    ensures { TakesRow words.Death rest.old.bytes.now result }
{
    let endpoint = rest.endpoint(Expected::Endpoint)?;
    let cause = rest.place(Expected::Cause)?;
    let tick = rest.place(Expected::Tick)?;
    rest.end()?;
    Ok(ScriptCommand::Death {
        endpoint,
        cause,
        tick,
    })
}

pub(crate) fn beat_at(rest: &mut Rest) -> Result<ScriptCommand, PartFault>
    ensures { TakesRow words.Beat rest.old.bytes.now result }
{
    let endpoint = rest.endpoint(Expected::Endpoint)?;
    let tick = rest.place(Expected::Tick)?;
    rest.end()?;
    Ok(ScriptCommand::Beat { endpoint, tick })
}

pub(crate) fn tick_at(rest: &mut Rest) -> Result<ScriptCommand, PartFault>
    ensures { TakesRow words.Tick rest.old.bytes.now result }
{
    let tick = rest.place(Expected::Tick)?;
    rest.end()?;
    Ok(ScriptCommand::Tick { tick })
}
