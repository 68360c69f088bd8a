//! What a reader sends its commands to.

ghost use Rattle.std.specs.Prelude.{◌≡◌, Option, None, IfSome};
ghost use Rattle.ds_machine.specs.State.{State};
ghost use Rattle.ds_machine.specs.Says.{IsReplyTo};
ghost use Rattle.ds_reader.specs.Asked.{GetsReply, OthersAsked};

use ds_machine::{Command, Reply};
use ds_store::Store;

/// A store that answers commands while others use it too: between any two commands they may have made any run of its
/// machine.
pub trait Asks {
    ghost use Rattle.ds_machine.specs.State.{State};
    ghost use Rattle.ds_machine.specs.declared.command.Command.{Command};

    // What no command changes about the asker, such as which pass of which desk it is.
    ghost Origin: { Type 0 };

    ghost origin_of: { Self → Origin };

    // The states that the store may be in, as far as the asker knows.
    ghost stands: { Self → State → Type 0 };

    // No command can be sent any more.
    ghost is_worn: { Self → Type 0 };

    // What one command does to the asker: it was sent at most once, and otherwise only others used the store.
    ghost asks_once: { Self → Command → Self → Type 0 };

    /// Sends the command; others may have used the store since the last one. Returns `None` if no command can be sent
    /// any more; then only others have used it.
    fn ask(&mut self, command: Command) -> Option<Reply>
        ensures asked { IfSome result (λ reply. GetsReply stands self.old command reply self.new) }
        ensures fits { IfSome result (λ reply. IsReplyTo command reply) }
        ensures went { result ≡ None → OthersAsked stands self.old self.new }
        ensures once { asks_once self.old command self.new }
        ensures same { origin_of self.new ≡ origin_of self.old }
        ensures worn { result ≡ None → is_worn self.new };
}

// A store that nobody else uses.
impl Asks for Store {
    ghost use Rattle.ds_content.specs.Stands.{ContentStands};
    ghost use Rattle.ds_reader.specs.Asked.{StepsOnce};

    ghost Origin = { Unit {0} };

    ghost origin_of = { λ _. tt };

    ghost stands = { ContentStands };

    ghost is_worn = { λ _. ⊥ };

    ghost asks_once = { StepsOnce };

    fn ask(&mut self, command: Command) -> Option<Reply> {
        Some(self.apply(command))
    }
}
