//! The driver table of a network server.

ghost use Rattle.std.specs.Prelude.{◌≡◌, OnErr};
ghost use Rattle.driver_tables.specs.Label.{newest};
ghost use Rattle.driver_tables.specs.DriverTable.{DriverTable, empty_table};
ghost use Rattle.driver_tables.specs.Outcome.{AnswersAs, LeavesAs};
ghost use Rattle.driver_tables.specs.Room.{LacksOnlyWhere, StateTakesMemory, RequestTakesMemory};
ghost use Rattle.driver_tables.specs.Assign.{assigning};
ghost use Rattle.driver_tables.specs.Changed.{changing};
ghost use Rattle.driver_tables.specs.Submit.{submitting};
ghost use Rattle.driver_tables.specs.Reply.{replying};
ghost use Rattle.driver_tables.specs.Stands.{TableStands};
ghost use Rattle.driver_tables.specs.Driver.{net_driver};

use crate::device::Class;
use crate::drivers::Drivers;
use crate::fault::TableFault;
use crate::moves::{Move, Moves};
use crate::table::Table;
use ds_names::{Endpoint, Generation, Name};
use std::alloc::Global;
use std::marker::Model;

/// The driver of each port of a network server, and the unanswered requests.
///
/// MINIX 3's network server reintegrates a restarted driver by restarting its ports. Pending requests are answered
/// Fault, since the layers above send lost packets again.
#[derive(Drop)]
pub struct NetTable {
    table: Table,
}

impl Model for NetTable {
    ghost use Rattle.driver_tables.specs.Stands.{TableRecord};

    ghost Value = { TableRecord };

    ghost view = { λ n. n.table };
}

impl NetTable {
    /// Returns a table without units. It takes no memory.
    pub fn new(alloc: Global) -> NetTable
        ensures { TableStands result empty_table }
    {
        NetTable {
            table: Table::new(alloc),
        }
    }

    /// Appends a port, with the endpoint that its label has now. Refuses a number that is in use as Assigned.
    pub fn assign(&mut self, port: u8, label: &Name) -> Result<(), TableFault>
        ensures answer { AnswersAs self.old (λ t. assigning t port (net_driver label.now)) result }
        ensures after { LeavesAs self.old (λ t. assigning t port (net_driver label.now)) result self.new }
        ensures unchanged { OnErr result (self.new ≡ self.old) }
    {
        self.table.assign(port, Class::Network, label)
    }

    /// Records the new state of a port's label: its driver's endpoint, or `None` if it has no driver. Returns the moves.
    ///
    /// First each port of the label starts at a new endpoint, in order of assignment. Then the label's pending requests are
    /// answered Fault, in order of submission. The state that the label has already has no moves. A label without a port has
    /// none either, and nothing is recorded.
    ///
    /// Refuses as OldEndpoint a generation below the label's greatest one, or the greatest one at an endpoint that the label
    /// doesn't have now. So an endpoint that is gone doesn't return. Then reports NoRoom if memory runs out; only moves take
    /// memory.
    pub fn changed(&mut self, label: &Name, state: Option<Endpoint>) -> Result<Moves, TableFault>
        ensures answer { AnswersAs self.old (λ t. changing t label.now state) result }
        ensures room { (t : DriverTable) → TableStands self.old t → LacksOnlyWhere (StateTakesMemory t label.now state) result }
        ensures after { LeavesAs self.old (λ t. changing t label.now state) result self.new }
        ensures unchanged { OnErr result (self.new ≡ self.old) }
    {
        self.table.changed(label, &state)
    }

    /// Returns the greatest generation that a label ever had; `None` if it has no port or never had an endpoint. It
    /// takes no memory.
    pub fn newest(&self, label: &Name) -> Option<Generation>
        ensures { (t : DriverTable) → TableStands self.now t → result ≡ newest t.states label.now }
    {
        self.table.newest(label)
    }

    /// Accepts a request to a port. It is sent if there is a driver, and otherwise answered Fault, which uses its id.
    ///
    /// Refuses as TwoIds an id that isn't above all accepted ones, then as NoDevice a number without a port, which uses no
    /// id. Then reports NoRoom if memory runs out, which only a request takes that is sent.
    pub fn submit(&mut self, id: u64, port: u8) -> Result<Move, TableFault>
        ensures answer { AnswersAs self.old (λ t. submitting t id port) result }
        ensures room { (t : DriverTable) → TableStands self.old t → LacksOnlyWhere (RequestTakesMemory t id port) result }
        ensures after { LeavesAs self.old (λ t. submitting t id port) result self.new }
        ensures unchanged { OnErr result (self.new ≡ self.old) }
    {
        self.table.submit(id, port)
    }

    /// Accepts a driver's reply to a request, and returns the move that answers the request Done. Takes no memory.
    ///
    /// Refuses as NotPending an id without a pending request, then as OldEndpoint an endpoint other than the one to which
    /// the request was last sent.
    pub fn reply(&mut self, endpoint: Endpoint, id: u64) -> Result<Move, TableFault>
        ensures answer { (t : DriverTable) → TableStands self.old t → result ≡ (replying t endpoint id).0 }
        ensures after { LeavesAs self.old (λ t. replying t endpoint id) result self.new }
        ensures unchanged { OnErr result (self.new ≡ self.old) }
    {
        self.table.reply(endpoint, id)
    }
}

impl Drivers for NetTable {
    ghost kept = { λ t. t };

    fn unit_count(&self) -> usize {
        self.table.unit_count()
    }

    fn label_at(&self, index: usize) -> Option<Name> {
        self.table.label_at(index)
    }

    fn newest(&self, label: &Name) -> Option<Generation> {
        NetTable::newest(self, label)
    }

    fn is_old(&self, label: &Name, state: &Option<Endpoint>) -> bool {
        self.table.is_old(label, state)
    }

    fn changed(&mut self, label: &Name, state: Option<Endpoint>) -> Result<Moves, TableFault> {
        NetTable::changed(self, label, state)
    }

    fn submit(&mut self, id: u64, unit: u8) -> Result<Move, TableFault> {
        NetTable::submit(self, id, unit)
    }

    fn reply(&mut self, endpoint: Endpoint, id: u64) -> Result<Move, TableFault> {
        NetTable::reply(self, endpoint, id)
    }
}
