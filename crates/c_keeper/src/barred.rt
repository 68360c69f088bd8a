//! Calls with events of RS, which keepers bar, since the processes of its services have to follow.

ghost use Rattle.std.specs.Prelude.{◌≡◌, is_some};
ghost use Rattle.c_keeper.specs.Barred.{CallsBesideKeepers, CallsKeptLine, CarriesOutKept, ServesUnlessKept};

use crate::session::KeeperSession;
use c_rs::{RsEvent, RsSession};
use c_store::read_bytes;
use c_values::Answer;
use ds_machine::Refusal;
use script_commands::{CommandFault, ScriptCommand};
use std::alloc::Global;

impl KeeperSession {
    /// Reports the event of a struct to RS, as a session without keepers does. Once keepers are open, it refuses as NotAllowed.
    pub fn serve_event(&mut self, event: &RsEvent, answer: &mut Answer)
        ensures served { ServesUnlessKept (is_some self.old.processes) event.now self.old.rs answer.new self.new.rs }
        ensures processes { self.new.processes ≡ self.old.processes }
    {
        if self.processes.is_some() {
            return self.rs.refuse(Refusal::NotAllowed, answer);
        }
        self.rs.serve_event(event, answer);
    }

    /// Carries out the command on a line, as a session without keepers does. Once keepers are open, an event is refused as NotAllowed.
    pub fn call_line(&mut self, alloc: Global, bytes: &[u8], answer: &mut Answer)
        ensures called { CallsKeptLine (is_some self.old.processes) bytes.now self.old.rs answer.new self.new.rs }
        ensures processes { self.new.processes ≡ self.old.processes }
    {
        if self.processes.is_some() {
            return call_kept_line(&mut self.rs, alloc, bytes, answer);
        }
        self.rs.call_line(alloc, bytes, answer);
    }
}

// Carries out the command on a line beside keepers.
fn call_kept_line(rs: &mut RsSession, alloc: Global, bytes: &[u8], answer: &mut Answer)
    ensures { CallsBesideKeepers bytes.now rs.old answer.new rs.new }
{
    match read_bytes(alloc, bytes) {
        Ok(command) => carry_kept(rs, alloc, command, answer),
        Err(CommandFault::BadLine { place, .. }) => {
            rs.told = None;
            rs.session.rest(Answer::bad_line(place), answer);
        }
        Err(CommandFault::NoRoom) => rs.refuse(Refusal::NoRoom, answer),
    }
}

// Carries out a command beside keepers.
fn carry_kept(rs: &mut RsSession, alloc: Global, command: ScriptCommand, answer: &mut Answer)
    ensures { CarriesOutKept command rs.old answer.new rs.new }
{
    match command.service_event() {
        Some(_) => rs.refuse(Refusal::NotAllowed, answer),
        None => rs.carry(alloc, command, answer),
    }
}
