//! Commands in RS's name.

ghost use Rattle.std.specs.Prelude.{◌≡◌};
ghost use Rattle.rs_store.specs.ByRs.{is_by_rs};

use ds_machine::Command;

/// Returns whether the command has RS's endpoint, `0/2`, as its caller. Only a Publish, a Delete and a Sweep have a caller.
pub fn is_by_rs(command: &Command) -> bool
    ensures { result ≡ is_by_rs command.now }
{
    match command {
        Command::Publish { caller, .. }
        | Command::Delete { caller, .. }
        | Command::Sweep { caller, .. } => caller.is_rs(),
        _ => false,
    }
}
