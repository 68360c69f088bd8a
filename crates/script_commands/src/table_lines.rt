//! Readers of the rest of a line for driver tables, one for each word.

#![tactic(auto, unfolding(crate::specs::Row::TakesRow))]

ghost use Rattle.script_commands.specs.Row.{TakesRow};
ghost use Rattle.script_commands.specs.declared.word.Word.TheVariants as words;

use crate::command::ScriptCommand;
use crate::pieces::Rest;
use ds_line::{Expected, PartFault};

pub(crate) fn assign_at(rest: &mut Rest) -> Result<ScriptCommand, PartFault>
    ensures { TakesRow words.Assign rest.old.bytes.now result }
{
    let device = rest.device()?;
    let label = rest.name(Expected::Label)?;
    rest.end()?;
    Ok(ScriptCommand::Assign { device, label })
}

pub(crate) fn follow_at(rest: &mut Rest) -> Result<ScriptCommand, PartFault>
    ensures { TakesRow words.Follow rest.old.bytes.now result }
{
    let map = rest.place(Expected::Map)?;
    rest.end()?;
    Ok(ScriptCommand::Follow { map })
}

pub(crate) fn submit_at(rest: &mut Rest) -> Result<ScriptCommand, PartFault>
    ensures { TakesRow words.Submit rest.old.bytes.now result }
{
    let server = rest.server()?;
    let id = rest.place(Expected::Id)?;
    let unit = rest.unit(Expected::Unit)?;
    let map = rest.place(Expected::Map)?;
    rest.end()?;
    Ok(ScriptCommand::Submit {
        server,
        id,
        unit,
        map,
    })
}

pub(crate) fn reply_at(rest: &mut Rest) -> Result<ScriptCommand, PartFault>
    ensures { TakesRow words.Reply rest.old.bytes.now result }
{
    let server = rest.server()?;
    let endpoint = rest.endpoint(Expected::Endpoint)?;
    let id = rest.place(Expected::Id)?;
    rest.end()?;
    Ok(ScriptCommand::Reply {
        server,
        endpoint,
        id,
    })
}
