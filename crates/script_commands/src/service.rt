//! The parts of lines for RS and driver tables.

use driver_tables::FileClass;

/// A request to RS for a service, as of MINIX 3's `service` command.
#[derive(Clone, Copy)]
pub enum Request {
    /// `up`: start it.
    Up,
    /// `down`: stop it.
    Down,
    /// `refresh`: stop it, and start it again at once.
    Refresh,
    /// `restart`: start it although it waits or was given up.
    Restart,
}

/// The unit that a driver drives.
#[derive(Clone, Copy)]
pub enum Device {
    /// `file MAJOR block` or `file MAJOR character`: a major device of the file server.
    File { major: u8, class: FileClass },
    /// `net PORT`: a port of the network server.
    Net { port: u8 },
}

/// The server whose table a line is for.
#[derive(Clone, Copy)]
pub enum Server {
    /// `file`: the file server.
    File,
    /// `net`: the network server.
    Net,
}
