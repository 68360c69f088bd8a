//! What is to be done about processes, when, and which generation is to be written.

ghost use Rattle.std.specs.Prelude.{◌≡◌};
ghost use Rattle.std.specs.Option.{option_copied, option_map};
ghost use Rattle.process_keeper.specs.Waking.{due_at};
ghost use Rattle.c_keeper.specs.Tasks.{endpoint_of_service, next_task};
ghost use Rattle.c_keeper.specs.Reading.{ReadsTask, ReadsToWrite, due_of};

use crate::session::KeeperSession;
use crate::task::{KeeperTask, empty_task, task_struct};
use ds_names::Endpoint;
use process_keeper::Task;
use rs_core::Rs;
use supervisor::endpoint_at;

impl KeeperSession {
    /// Returns what is to be done now about the processes of one service, or a wait if nothing is. `None` if keepers aren't open.
    pub fn task(&self, now: u64) -> Option<KeeperTask>
        ensures { ReadsTask self.now.processes self.now.rs.session.node.services now result }
    {
        match &self.processes {
            Some(processes) => Some(next_task(
                self.rs.session.node.services(),
                processes.task(now),
            )),
            None => None,
        }
    }

    /// Returns the first time after this one at which a start is tried again or a grace period is over; 2^64 - 1 if there is none without
    /// another note. `None` if keepers aren't open.
    pub fn due(&self, now: u64) -> Option<u64>
        ensures { result ≡ due_of self.now.processes now }
    {
        match &self.processes {
            Some(processes) => Some(processes.due(now)),
            None => None,
        }
    }

    /// Returns the generation to write to the file. `None` if nothing is to be written, or if keepers aren't open.
    pub fn to_write(&self) -> Option<u64>
        ensures { ReadsToWrite self.now.processes result }
    {
        match &self.processes {
            Some(processes) => processes.to_write(),
            None => None,
        }
    }
}

// Returns the struct of the next task.
fn next_task(services: Option<&Rs>, next: Option<(usize, Task)>) -> KeeperTask
    ensures { result ≡ next_task (option_copied services.entry) next }
{
    match next {
        Some((service, task)) => task_struct(service, task, endpoint_of_service(services, service)),
        None => empty_task(0, 0),
    }
}

// Returns the endpoint of the service's instance that RS counts as up.
fn endpoint_of_service(services: Option<&Rs>, service: usize) -> Option<Endpoint>
    ensures { result ≡ endpoint_of_service (option_copied services.entry) service }
{
    match services {
        Some(rs) => endpoint_at(rs, service),
        None => None,
    }
}
