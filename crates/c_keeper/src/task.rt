//! Tasks, as C has them.

ghost use Rattle.std.specs.Prelude.{◌≡◌};
ghost use Rattle.c_keeper.specs.Tasks.{empty_task, task_struct, task_with_generation, task_with_leader};

use ds_names::Endpoint;
use process_keeper::Task;

/// What is to be done about the processes of a service. A part that the kind doesn't have is 0.
#[repr(C)]
#[derive(Clone, Copy)]
pub struct KeeperTask {
    /// The number of the leader, which is also that of the process group.
    pub leader: u64,
    /// With `slot`, the endpoint of a start, or of an instance that died.
    pub generation: u64,
    /// The service, from 0 in the order of the settings.
    pub service: u64,
    /// 0 wait, 1 clear, 2 fork, 3 report, 4 terminate, 5 kill, 6 scan, 7 reap.
    pub kind: u32,
    pub slot: u16,
}

/// Returns the struct of a task of a service that RS counts as up at this endpoint.
pub(crate) fn task_struct(service: usize, task: Task, endpoint: Option<Endpoint>) -> KeeperTask
    ensures { result ≡ task_struct service task endpoint }
{
    match task {
        Task::Rest => empty_task(0, service),
        Task::Clear => empty_task(1, service),
        Task::Fork(generation) => task_with_generation(
            empty_task(2, service),
            generation,
            endpoint,
        ),
        Task::Report(generation) => task_with_generation(
            empty_task(3, service),
            generation,
            endpoint,
        ),
        Task::Ask(leader) => task_with_leader(empty_task(4, service), leader),
        Task::Kill(leader) => task_with_leader(empty_task(5, service), leader),
        Task::Scan(leader) => task_with_leader(empty_task(6, service), leader),
        Task::Reap(leader) => task_with_leader(empty_task(7, service), leader),
    }
}

/// Returns a task of a kind, with zeros for the rest.
pub(crate) fn empty_task(kind: u32, service: usize) -> KeeperTask
    ensures { result ≡ empty_task kind service }
{
    KeeperTask {
        leader: 0,
        generation: 0,
        service: service as u64,
        kind,
        slot: 0,
    }
}

// Returns the task with this generation, and with the slot of the endpoint.
fn task_with_generation(task: KeeperTask, generation: u64, endpoint: Option<Endpoint>) -> KeeperTask
    ensures { result ≡ task_with_generation task generation endpoint }
{
    match endpoint {
        Some(endpoint) => KeeperTask {
            generation,
            slot: endpoint.slot(),
            ..task
        },
        None => KeeperTask { generation, ..task },
    }
}

// Returns the task with this leader.
fn task_with_leader(task: KeeperTask, leader: u64) -> KeeperTask
    ensures { result ≡ task_with_leader task leader }
{
    KeeperTask { leader, ..task }
}
