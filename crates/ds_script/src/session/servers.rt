//! The commands of a script to RS and the driver tables. Each appends its answer to the output.

ghost use Rattle.std.specs.Prelude.{◌≡◌, OnOk, OnErr};
ghost use Rattle.script_services.specs.Services.{AnswersSettings};
ghost use Rattle.script_services.specs.Tables.{AnswersAssign, AnswersFollow, AnswersReply, AnswersSubmit};
ghost use Rattle.ds_script.specs.Answer.{AppendsByServers, AppendsByServices, AppendsSettings, items_of_map};

use crate::session::Session;
use ds_names::{Endpoint, Name, NoRoom};
use rs_core::Event;
use script_commands::{Device, Server, SettingsText};
use script_services::answer_event;
use std::alloc::Global;

impl Session {
    /// Begins RS with settings, unless it has settings already.
    pub(crate) fn accept(
        &mut self,
        alloc: Global,
        text: SettingsText,
        output: &mut Vec<u8>,
    ) -> Result<(), NoRoom>
        ensures answered { OnOk result (AppendsSettings text output.old.items output.new.items self.old self.new) }
        ensures unanswered { OnErr result (output.new.items ≡ output.old.items) }
    {
        self.servers.accept(alloc, text.bytes(), output)
    }

    /// Passes an event at a tick to RS, and the commands among its actions to the current store.
    pub(crate) fn serve(
        &mut self,
        alloc: Global,
        event: Event,
        tick: u64,
        output: &mut Vec<u8>,
    ) -> Result<(), NoRoom>
        ensures answered { OnOk result (AppendsByServices event tick output.old.items output.new.items self.old self.new) }
        ensures unanswered { OnErr result (output.new.items ≡ output.old.items) }
    {
        answer_event(
            alloc,
            &mut self.servers,
            &mut self.world,
            self.side,
            event,
            tick,
            output,
        )
    }

    /// Assigns a device to a label.
    pub(crate) fn assign(
        &mut self,
        device: Device,
        label: Name,
        output: &mut Vec<u8>,
    ) -> Result<(), NoRoom>
        ensures answered { OnOk result (AppendsByServers (AnswersAssign device label) output.old.items output.new.items self.old self.new) }
        ensures unanswered { OnErr result (output.new.items ≡ output.old.items) }
    {
        self.servers.assign(device, &label, output)
    }

    /// Makes both tables follow a map.
    pub(crate) fn follow(
        &mut self,
        alloc: Global,
        map: u64,
        output: &mut Vec<u8>,
    ) -> Result<(), NoRoom>
        ensures answered { OnOk result (AppendsByServers (AnswersFollow (items_of_map self.old map))
            output.old.items output.new.items self.old self.new) }
        ensures unanswered { OnErr result (output.new.items ≡ output.old.items) }
    {
        self.servers
            .follow(alloc, self.world.map(map as usize), output)
    }

    /// Makes a table follow a map and take a request.
    pub(crate) fn submit(
        &mut self,
        alloc: Global,
        server: Server,
        id: u64,
        unit: u8,
        map: u64,
        output: &mut Vec<u8>,
    ) -> Result<(), NoRoom>
        ensures answered { OnOk result (AppendsByServers (AnswersSubmit server id unit (items_of_map self.old map))
            output.old.items output.new.items self.old self.new) }
        ensures unanswered { OnErr result (output.new.items ≡ output.old.items) }
    {
        self.servers.submit(
            alloc,
            server,
            id,
            unit,
            self.world.map(map as usize),
            output,
        )
    }

    /// Passes a driver's reply to a table.
    pub(crate) fn reply(
        &mut self,
        server: Server,
        endpoint: Endpoint,
        id: u64,
        output: &mut Vec<u8>,
    ) -> Result<(), NoRoom>
        ensures answered { OnOk result (AppendsByServers (AnswersReply server endpoint id)
            output.old.items output.new.items self.old self.new) }
        ensures unanswered { OnErr result (output.new.items ≡ output.old.items) }
    {
        self.servers.reply(server, endpoint, id, output)
    }
}
