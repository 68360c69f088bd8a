//! Lines of a script.

ghost use Rattle.std.specs.Prelude.{◌≡◌};
ghost use Rattle.c_rs.specs.Lines.{CallsRsLine, CarriesOutBesideRs, CarriesOutCommand, CarriesOutWithRs, PassesOn, refusal_beside_rs};

use crate::session::{RsSession, let_go};
use c_store::{carry_out, fast_name_of, fast_retrieve, read_bytes};
use c_values::Answer;
use ds_machine::Refusal;
use rs_store::is_by_rs;
use script_commands::{CommandFault, ScriptCommand};
use std::alloc::Global;

impl RsSession {
    /// Carries out the command on a line, whose newline may be missing.
    ///
    /// A command of the store is carried out as a session does it. Once RS is open, `service`, `death`, `beat` and `tick` are its events.
    /// `settings` is then refused as Exists, and a store command from RS as NotAllowed. Any other command is answered as no request, a
    /// bad line by its bad byte, and a line for which memory runs out as a refusal; then nothing changes.
    pub fn call_line(&mut self, alloc: Global, bytes: &[u8], answer: &mut Answer)
        ensures { CallsRsLine bytes.now self.old answer.new self.new }
    {
        match fast_retrieve(bytes) {
            Some(key) => self.fast_find(alloc, &key, answer),
            None => self.call_other_line(alloc, bytes, answer),
        }
    }

    // Carries out the command on a line, which may be a `nameof`.
    #[inline(always)]
    fn call_other_line(&mut self, alloc: Global, bytes: &[u8], answer: &mut Answer)
        ensures { CallsRsLine bytes.now self.old answer.new self.new }
    {
        match fast_name_of(bytes) {
            Some(endpoint) => self.fast_name(endpoint, answer),
            None => self.call_any_line(alloc, bytes, answer),
        }
    }

    // Carries out the command on any line. Not inlined, because the fast ways need none of its locals.
    #[inline(never)]
    fn call_any_line(&mut self, alloc: Global, bytes: &[u8], answer: &mut Answer)
        ensures { CallsRsLine bytes.now self.old answer.new self.new }
    {
        match read_bytes(alloc, bytes) {
            Ok(command) => self.carry(alloc, command, answer),
            Err(CommandFault::BadLine { place, .. }) => {
                self.told = None;
                self.session.rest(Answer::bad_line(place), answer);
            }
            Err(CommandFault::NoRoom) => {
                self.told = None;
                self.session.refuse(answer);
            }
        }
    }

    /// Carries out the command of a line.
    pub fn carry(&mut self, alloc: Global, command: ScriptCommand, answer: &mut Answer)
        ensures { CarriesOutCommand command self.old answer.new self.new }
    {
        if self.session.node.services().is_none() {
            return self.pass_on(alloc, command, answer);
        }
        self.carry_with_rs(alloc, command, answer);
    }

    // Carries out a command, once RS is open.
    fn carry_with_rs(&mut self, alloc: Global, command: ScriptCommand, answer: &mut Answer)
        ensures { CarriesOutWithRs command self.old answer.new self.new }
    {
        match command.service_event() {
            Some((event, tick)) => self.serve(event, tick, answer),
            None => self.carry_beside_rs(alloc, command, answer),
        }
    }

    // Carries out a command that isn't an event, once RS is open.
    fn carry_beside_rs(&mut self, alloc: Global, command: ScriptCommand, answer: &mut Answer)
        ensures { CarriesOutBesideRs command self.old answer.new self.new }
    {
        match refusal_of(&command) {
            Some(refusal) => self.refuse(refusal, answer),
            None => self.pass_on(alloc, command, answer),
        }
    }

    // Carries out a command as a session does.
    fn pass_on(&mut self, alloc: Global, command: ScriptCommand, answer: &mut Answer)
        ensures { PassesOn command self.old answer.new self.new }
    {
        let_go(&mut self.told);
        carry_out(alloc, &mut self.session, command, answer);
    }
}

// Returns why a command is refused once RS is open: it opens RS again, or is in RS's name.
fn refusal_of(command: &ScriptCommand) -> Option<Refusal>
    ensures { result ≡ refusal_beside_rs command.now }
{
    match command {
        ScriptCommand::Settings { .. } => Some(Refusal::Exists),
        ScriptCommand::Store(command) if is_by_rs(command) => Some(Refusal::NotAllowed),
        _ => None,
    }
}
