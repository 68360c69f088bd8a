//! RS and the driver tables.

ghost use Rattle.std.specs.Prelude.{◌≡◌, OnErr};
ghost use Rattle.script_services.specs.Servers.{no_servers, ServersStand};

use driver_tables::{FileTable, NetTable};
use rs_core::Rs;
use std::alloc::Global;
use std::marker::Model;

/// RS, once settings are accepted, and the driver tables of a file server and a network server.
#[derive(Drop)]
pub struct Servers {
    pub(crate) services: Option<Rs>,
    pub(crate) file: FileTable,
    pub(crate) net: NetTable,
}

impl Model for Servers {
    ghost use Rattle.std.specs.Prelude.{Option};
    ghost use Rattle.std.specs.Coded.{code_by, coded×, coded_option};
    ghost use Rattle.rs_core.specs.State.{RsRecord};
    ghost use Rattle.rs_core.specs.contracts.rs.Rs.{the_row as rs_row};
    ghost use Rattle.driver_tables.specs.Stands.{TableRecord};
    ghost use Rattle.driver_tables.specs.contracts.file_table.FileTable.{the_row as file_row};
    ghost use Rattle.driver_tables.specs.contracts.net_table.NetTable.{the_row as net_row};
    ghost use Rattle.script_services.specs.Servers.{ServersRecord, servers_of};

    ghost Value = { ServersRecord };

    ghost coded = { code_by
        (Option RsRecord × (TableRecord × TableRecord))
        (coded× (coded_option rs_row.coded) (coded× file_row.coded net_row.coded))
        (λ s. (s.services, (s.file, s.net)))
        (λ p. servers_of p.0 p.1.0 p.1.1)
        (λ s i. s) };

    ghost view = { λ s. servers_of s.services s.file s.net };
}

impl Servers {
    /// Returns RS without settings, and tables without units. It takes no memory.
    pub fn new(alloc: Global) -> Servers
        ensures { ServersStand result no_servers }
    {
        Servers {
            services: None,
            file: FileTable::new(alloc),
            net: NetTable::new(alloc),
        }
    }
}
