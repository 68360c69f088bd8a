//! The wording of a line's reply.

ghost use Rattle.std.specs.Prelude.{◌≡◌};
ghost use Rattle.script_commands.specs.Wording.{wording};

use crate::command::ScriptCommand;
use script_answers::Wording;

impl ScriptCommand {
    /// Returns how the reply to the line's Merge is worded.
    pub fn wording(&self) -> Wording
        ensures { result ≡ wording self.now }
    {
        match self {
            ScriptCommand::Offer(_) => Wording::AsOffer,
            _ => Wording::AsMerge,
        }
    }
}
