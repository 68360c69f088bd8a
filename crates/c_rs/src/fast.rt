//! Fast ways for the lines of a Retrieve and of a NameOf.
//!
//! Each has the contract of the general way. docs/design/fast-ways.md says what that saves.

ghost use Rattle.ds_machine.specs.declared.command.Command.TheVariants.{Retrieve, NameOf};
ghost use Rattle.script_commands.specs.declared.command.ScriptCommand.TheVariants.{Store};
ghost use Rattle.c_rs.specs.Lines.{PassesOn};

use crate::session::{RsSession, let_go};
use c_values::Answer;
use ds_names::{Endpoint, Key};
use std::alloc::Global;

impl RsSession {
    /// Answers the Retrieve of a key.
    #[inline(always)]
    pub(crate) fn fast_find(&mut self, alloc: Global, key: &Key, answer: &mut Answer)
        ensures { PassesOn (Store (Retrieve key.now)) self.old answer.new self.new }
    {
        let_go(&mut self.told);
        self.session.fast_find(alloc, key, answer);
    }

    /// Answers the NameOf of an endpoint.
    #[inline(always)]
    pub(crate) fn fast_name(&mut self, endpoint: Endpoint, answer: &mut Answer)
        ensures { PassesOn (Store (NameOf endpoint)) self.old answer.new self.new }
    {
        let_go(&mut self.told);
        self.session.fast_name(endpoint, answer);
    }
}
