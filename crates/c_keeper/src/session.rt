//! A session with RS, and the keepers of the processes of its services.

ghost use Rattle.std.specs.Prelude.{◌≡◌, None};
ghost use Rattle.c_keeper.specs.Opening.{OpensBeside, OpensKeepers, OpensKeepersOf};

use crate::counted::first_counted;
use crate::words::{ALREADY_UP, DONE, EXISTS, NO_ROOM, NOT_FOUND};
use c_rs::RsSession;
use node_supervisor::Processes;
use rs_core::Rs;
use std::alloc::Global;

/// A session with RS, and the keepers of the processes of its services once they are open.
#[derive(Drop)]
pub struct KeeperSession {
    /// The store, RS, and the last answer.
    pub rs: RsSession,
    pub processes: Option<Processes>,
}

impl KeeperSession {
    /// Opens keepers of RS's services: an earlier run may have left processes of each, and the file has RS's next generation. The session
    /// is unchanged. Returns 0, or the number of the first refusal: Exists once keepers are open; NotFound if RS isn't open; AlreadyUp if
    /// RS counts an instance as up; NoRoom.
    pub fn open_keepers(&mut self, alloc: Global) -> u32
        ensures rs { self.new.rs ≡ self.old.rs }
        ensures opens { OpensKeepers self.old.rs.session.node.services self.old.processes result self.new.processes }
    {
        match &self.processes {
            Some(_) => EXISTS,
            None => self.open_first(alloc),
        }
    }

    // Opens keepers beside RS, of which there are none.
    fn open_first(&mut self, alloc: Global) -> u32
        requires { self.old.processes ≡ None }
        ensures rs { self.new.rs ≡ self.old.rs }
        ensures opens { OpensBeside self.old.rs.session.node.services result self.new.processes }
    {
        match self.rs.session.node.services() {
            Some(rs) => open_with(alloc, rs, &mut self.processes),
            None => NOT_FOUND,
        }
    }
}

// Opens keepers of RS's services, if RS counts no instance as up.
fn open_with(alloc: Global, rs: &Rs, place: &mut Option<Processes>) -> u32
    requires { place.old ≡ None }
    ensures { OpensKeepersOf rs.now result place.new }
{
    if let Some(_place) = first_counted(rs) {
        return ALREADY_UP;
    }
    match Processes::new(alloc, rs) {
        Ok(processes) => {
            *place = Some(processes);
            DONE
        }
        Err(_) => NO_ROOM,
    }
}
