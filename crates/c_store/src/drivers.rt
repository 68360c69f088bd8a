//! The driver table of a file server or of a network server.

ghost use Rattle.std.specs.Prelude.{◌≡◌, ◌<◌, MatchOption};
ghost use Rattle.driver_tables.specs.DriverTable.{empty_table};
ghost use Rattle.driver_tables.specs.Run.{no_moves, one_move};
ghost use Rattle.driver_tables.specs.Stands.{TableStands};
ghost use Rattle.c_store.specs.Drivers.{kept, server_number, class_at, file_class_at, AssignsIn, RepliesIn};

use driver_tables::{FileClass, FileTable, Move, NetTable, TableFault};
use ds_names::{Endpoint, Name};
use std::alloc::Global;

/// The driver table of either server.
#[derive(Drop)]
pub enum Tables {
    File(FileTable),
    Net(NetTable),
}

impl Tables {
    /// Returns an empty table of a server: 0 a file server, 1 a network server. `None` for another number. It takes no memory.
    pub(crate) fn new(alloc: Global, server: u32) -> Option<Tables>
        ensures server { MatchOption result (1 < server) (λ t. server_number t ≡ server) }
        ensures empty { MatchOption result (Unit {0}) (λ t. TableStands (kept t) empty_table) }
    {
        match server {
            0 => Some(Tables::File(FileTable::new(alloc))),
            1 => Some(Tables::Net(NetTable::new(alloc))),
            _ => None,
        }
    }

    /// Assigns a unit to the driver with a label. `None` if the server has no units of this class.
    pub(crate) fn assign(
        &mut self,
        unit: u8,
        class: u8,
        label: &Name,
    ) -> Option<Result<(), TableFault>>
        ensures { AssignsIn unit class label.now self.old result self.new }
    {
        match self {
            Tables::File(table) => {
                let class = file_class(class)?;
                Some(table.assign(unit, class, label))
            }
            Tables::Net(table) => {
                if class == 2 {
                    Some(table.assign(unit, label))
                } else {
                    None
                }
            }
        }
    }

    /// Takes a driver's reply to a request. It takes no memory.
    pub(crate) fn reply(&mut self, endpoint: Endpoint, id: u64) -> Result<Move, TableFault>
        ensures { RepliesIn endpoint id self.old (one_move result) self.new }
    {
        match self {
            Tables::File(table) => table.reply(endpoint, id),
            Tables::Net(table) => table.reply(endpoint, id),
        }
    }
}

// The class with a number, of a file server's units.
fn file_class(class: u8) -> Option<FileClass>
    ensures { result ≡ file_class_at class }
{
    match class {
        0 => Some(FileClass::Block),
        1 => Some(FileClass::Character),
        _ => None,
    }
}
