//! Readers of the rest of a line of a world, one for each word.

#![tactic(auto, unfolding(crate::specs::Row::TakesRow))]

ghost use Rattle.script_commands.specs.Row.{TakesRow};
ghost use Rattle.script_commands.specs.declared.word.Word.TheVariants as words;

use crate::command::ScriptCommand;
use crate::pieces::Rest;
use ds_line::{Expected, PartFault};

pub(crate) fn ring_at(rest: &mut Rest) -> Result<ScriptCommand, PartFault>
    ensures { TakesRow words.Ring rest.old.bytes.now result }
{
    let ring = rest.ring()?;
    rest.end()?;
    Ok(ScriptCommand::Ring { ring })
}

pub(crate) fn side_at(rest: &mut Rest) -> Result<ScriptCommand, PartFault>
    ensures { TakesRow words.Side rest.old.bytes.now result }
{
    let side = rest.side()?;
    rest.end()?;
    Ok(ScriptCommand::Side { side })
}

pub(crate) fn clear_at(rest: &mut Rest) -> Result<ScriptCommand, PartFault>
    ensures { TakesRow words.Clear rest.old.bytes.now result }
{
    let map = rest.place(Expected::Map)?;
    rest.end()?;
    Ok(ScriptCommand::Clear { map })
}

pub(crate) fn restart_at(rest: &mut Rest) -> Result<ScriptCommand, PartFault>
    ensures { TakesRow words.Restart rest.old.bytes.now result }
{
    let side = rest.side()?;
    let incarnation = rest.place(Expected::Incarnation)?;
    rest.end()?;
    Ok(ScriptCommand::Restart { side, incarnation })
}

pub(crate) fn deliver_at(rest: &mut Rest) -> Result<ScriptCommand, PartFault>
    ensures { TakesRow words.Deliver rest.old.bytes.now result }
{
    let message = rest.place(Expected::Message)?;
    let holder = rest.holder()?;
    let count = rest.count()?;
    rest.end()?;
    Ok(ScriptCommand::Deliver {
        message,
        holder,
        count,
    })
}
