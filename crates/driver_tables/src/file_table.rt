//! The driver table of a file server.

ghost use Rattle.std.specs.Prelude.{◌≡◌, OnErr};
ghost use Rattle.driver_tables.specs.Label.{newest};
ghost use Rattle.driver_tables.specs.DriverTable.{DriverTable, empty_table};
ghost use Rattle.driver_tables.specs.Outcome.{AnswersAs, LeavesAs};
ghost use Rattle.driver_tables.specs.Room.{LacksOnlyWhere, StateTakesMemory, RequestTakesMemory};
ghost use Rattle.driver_tables.specs.Assign.{assigning};
ghost use Rattle.driver_tables.specs.Changed.{changing};
ghost use Rattle.driver_tables.specs.Submit.{submitting};
ghost use Rattle.driver_tables.specs.Reply.{replying};
ghost use Rattle.driver_tables.specs.Stands.{TableStands};
ghost use Rattle.driver_tables.specs.FileDriver.{file_driver};

use crate::device::Class;
use crate::drivers::Drivers;
use crate::fault::TableFault;
use crate::moves::{Move, Moves};
use crate::table::Table;
use ds_names::{Endpoint, Generation, Name};
use std::alloc::Global;
use std::marker::Model;

/// The class of a major device, as in MINIX 3: block special or character special.
#[derive(Clone, Copy, PartialEq, Eq)]
pub enum FileClass {
    /// Requests are reads and writes of blocks, and may be sent again.
    Block,
    /// Nothing is sent again: what a terminal or printer got may already be printed.
    Character,
}

/// The driver of each major device of a file server, and the unanswered requests.
///
/// This is `dmap` of MINIX 3's file server, indexed by major device number. A request to a block driver outlives the
/// driver and is sent again to its successor. A request to a character driver ends with it.
#[derive(Drop)]
pub struct FileTable {
    table: Table,
}

impl Model for FileTable {
    ghost use Rattle.driver_tables.specs.Stands.{TableRecord};

    ghost Value = { TableRecord };

    ghost view = { λ f. f.table };
}

impl FileTable {
    /// Returns a table without units. It takes no memory.
    pub fn new(alloc: Global) -> FileTable
        ensures { TableStands result empty_table }
    {
        FileTable {
            table: Table::new(alloc),
        }
    }

    /// Appends a major device, with the endpoint that its label has now. Refuses a number that is in use as Assigned.
    pub fn assign(&mut self, major: u8, class: FileClass, label: &Name) -> Result<(), TableFault>
        ensures answer { AnswersAs self.old (λ t. assigning t major (file_driver class label.now)) result }
        ensures after { LeavesAs self.old (λ t. assigning t major (file_driver class label.now)) result self.new }
        ensures unchanged { OnErr result (self.new ≡ self.old) }
    {
        let class = match class {
            FileClass::Block => Class::Block,
            FileClass::Character => Class::Character,
        };
        self.table.assign(major, class, label)
    }

    /// Records the new state of a device's label: its driver's endpoint, or `None` if it has no driver. Returns the moves of
    /// the pending requests, in order of submission.
    ///
    /// A request to a block device is sent to the new endpoint. Without an endpoint it has no move, and the driver to which
    /// it was last sent may still reply. A request to a character device is answered Fault. The state that the label has
    /// already has no moves. A label without a device has none either, and nothing is recorded.
    ///
    /// Refuses as OldEndpoint a generation below the label's greatest one, or the greatest one at an endpoint that the label
    /// doesn't have now. So an endpoint that is gone doesn't return. Then reports NoRoom if memory runs out; only moves take
    /// memory.
    pub fn changed(&mut self, label: &Name, state: Option<Endpoint>) -> Result<Moves, TableFault>
        ensures answer { AnswersAs self.old (λ t. changing t label.now state) result }
        ensures room { (t : DriverTable) → TableStands self.old t → LacksOnlyWhere (StateTakesMemory t label.now state) result }
        ensures after { LeavesAs self.old (λ t. changing t label.now state) result self.new }
        ensures unchanged { OnErr result (self.new ≡ self.old) }
    {
        self.table.changed(label, &state)
    }

    /// Returns the greatest generation that a label ever had; `None` if it has no device or never had an endpoint. It
    /// takes no memory.
    pub fn newest(&self, label: &Name) -> Option<Generation>
        ensures { (t : DriverTable) → TableStands self.now t → result ≡ newest t.states label.now }
    {
        self.table.newest(label)
    }

    /// Accepts a request to a major device. It is sent if there is a driver. Otherwise a block device's request is
    /// held, and a character device's is answered Fault, which uses its id.
    ///
    /// Refuses as TwoIds an id that isn't above all accepted ones, then as NoDevice a number without a device, which uses no
    /// id. Then reports NoRoom if memory runs out, which only a request takes that is sent or held.
    pub fn submit(&mut self, id: u64, major: u8) -> Result<Move, TableFault>
        ensures answer { AnswersAs self.old (λ t. submitting t id major) result }
        ensures room { (t : DriverTable) → TableStands self.old t → LacksOnlyWhere (RequestTakesMemory t id major) result }
        ensures after { LeavesAs self.old (λ t. submitting t id major) result self.new }
        ensures unchanged { OnErr result (self.new ≡ self.old) }
    {
        self.table.submit(id, major)
    }

    /// Accepts a driver's reply to a request, and returns the move that answers the request Done. Takes no memory.
    ///
    /// Refuses as NotPending an id without a pending request, then as OldEndpoint an endpoint other than the one to which
    /// the request was last sent.
    pub fn reply(&mut self, endpoint: Endpoint, id: u64) -> Result<Move, TableFault>
        ensures answer { (t : DriverTable) → TableStands self.old t → result ≡ (replying t endpoint id).0 }
        ensures after { LeavesAs self.old (λ t. replying t endpoint id) result self.new }
        ensures unchanged { OnErr result (self.new ≡ self.old) }
    {
        self.table.reply(endpoint, id)
    }
}

impl Drivers for FileTable {
    ghost kept = { λ t. t };

    fn unit_count(&self) -> usize {
        self.table.unit_count()
    }

    fn label_at(&self, index: usize) -> Option<Name> {
        self.table.label_at(index)
    }

    fn newest(&self, label: &Name) -> Option<Generation> {
        FileTable::newest(self, label)
    }

    fn is_old(&self, label: &Name, state: &Option<Endpoint>) -> bool {
        self.table.is_old(label, state)
    }

    fn changed(&mut self, label: &Name, state: Option<Endpoint>) -> Result<Moves, TableFault> {
        FileTable::changed(self, label, state)
    }

    fn submit(&mut self, id: u64, unit: u8) -> Result<Move, TableFault> {
        FileTable::submit(self, id, unit)
    }

    fn reply(&mut self, endpoint: Endpoint, id: u64) -> Result<Move, TableFault> {
        FileTable::reply(self, endpoint, id)
    }
}
