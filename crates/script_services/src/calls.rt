//! The answers to `assign` and `reply`.

ghost use Rattle.std.specs.Prelude.{◌≡◌, ◌++◌, OnOk, OnErr};
ghost use Rattle.driver_tables.specs.Run.{no_moves, one_move};
ghost use Rattle.script_services.specs.Tables.{assign_text, answer_text, AnswersAssign, AnswersReply};
ghost use Rattle.script_services.specs.Waiting.{AppendsLed, LeadsUnanswered};

use crate::servers::Servers;
use driver_tables::{Move, TableFault};
use ds_names::{Endpoint, Name, NoRoom};
use script_answers::{append_assigned, append_move, append_table_fault};
use script_commands::{Device, Server};

impl Servers {
    /// Assigns a device to the driver with a label, and appends `assigned`, or the refusal. At `Err` only the answer is
    /// missing.
    pub fn assign(
        &mut self,
        device: Device,
        label: &Name,
        output: &mut Vec<u8>,
    ) -> Result<(), NoRoom>
        ensures answered { OnOk result (AppendsLed (AnswersAssign device label.now) output.old.items output.new.items self.old self.new) }
        ensures unanswered { OnErr result (output.new.items ≡ output.old.items) }
        ensures carried { OnErr result (LeadsUnanswered (AnswersAssign device label.now) self.old self.new) }
    {
        match device {
            Device::File { major, class } => {
                append_assignment(self.file.assign(major, class, label), output)
            }
            Device::Net { port } => append_assignment(self.net.assign(port, label), output),
        }
    }

    /// Passes a driver's reply to a server's table, and appends the move that follows, or the refusal. At `Err` only the
    /// answer is missing.
    pub fn reply(
        &mut self,
        server: Server,
        endpoint: Endpoint,
        id: u64,
        output: &mut Vec<u8>,
    ) -> Result<(), NoRoom>
        ensures answered { OnOk result (AppendsLed (AnswersReply server endpoint id) output.old.items output.new.items self.old self.new) }
        ensures unanswered { OnErr result (output.new.items ≡ output.old.items) }
        ensures carried { OnErr result (LeadsUnanswered (AnswersReply server endpoint id) self.old self.new) }
    {
        match server {
            Server::File => append_answer(self.file.reply(endpoint, id), output),
            Server::Net => append_answer(self.net.reply(endpoint, id), output),
        }
    }
}

// Appends the answer to an assignment.
fn append_assignment(assigned: Result<(), TableFault>, output: &mut Vec<u8>) -> Result<(), NoRoom>
    ensures written { OnOk result (output.new.items ≡ output.old.items ++ assign_text (no_moves assigned)) }
    ensures unchanged { OnErr result (output.new.items ≡ output.old.items) }
{
    match assigned {
        Ok(()) => append_assigned(output),
        Err(fault) => append_table_fault(output, fault),
    }
}

// Appends the move of a reply, or the refusal.
fn append_answer(replied: Result<Move, TableFault>, output: &mut Vec<u8>) -> Result<(), NoRoom>
    ensures written { OnOk result (output.new.items ≡ output.old.items ++ answer_text (one_move replied)) }
    ensures unchanged { OnErr result (output.new.items ≡ output.old.items) }
{
    match replied {
        Ok(step) => append_move(output, step),
        Err(fault) => append_table_fault(output, fault),
    }
}
