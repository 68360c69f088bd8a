//! The beginning of a run.

ghost use Rattle.std.specs.Prelude.{All, ◌≡◌, ◌≤◌, ◌<◌, ◌+◌, ◌-◌, ◌*◌, [], length, map, sum_by, vec_capacity};
ghost use Rattle.std.specs.Prelude.{IfErr, IfOk, IsTrue, OnOk};
ghost use Rattle.desk.specs.Desk.{pass_count};
ghost use Rattle.desk.specs.Pass.{calls};
ghost use Rattle.desk_store.specs.Follower.{new_follower};
ghost use Rattle.ds_live.specs.Commands.{every_key};
ghost use Rattle.ds_live.specs.Workers.{IsAtHome, IsOf, IsTask, others_in, plain};
ghost use Rattle.ds_live.specs.Homes.{Home, IsNewHome, home_of};
ghost use Rattle.ds_live.specs.Run.{IsReady, downward};
ghost use Rattle.ds_live.specs.Sizes.{are_fit};
ghost use Rattle.ds_live.specs.Tasks.{IsHired};

use crate::back::Back;
use crate::commands::everything;
use crate::gate::Gate;
use crate::given_up::GivenUp;
use crate::live_fault::LiveFault;
use crate::sizes::Sizes;
use crate::task::Task;
use crate::turns::{Desks, StoreTurns, Turns};
use crate::worker::Worker;
use desk::{AccountRoom, Desk, Pass};
use desk_store::Follower;
use ds_store::Store;
use std::alloc::Global;
use std::sync::Wait;

// The number of items that a store's journal keeps.
const RING: u32 = 256;

/// Opens a desk with a new store of this incarnation, and returns it with the memory for its account and its 1 to 64 passes.
pub(crate) fn open_desk(
    alloc: Global,
    incarnation: u64,
    passes: u32,
) -> Result<(Desk<Box<Store>>, AccountRoom, Vec<Pass<Box<Store>>>), LiveFault>
    requires { (0 < passes) × (passes ≤ 64) }
    ensures home { IfOk result (λ d. All (λ p. IsAtHome (home_of d.0) p) d.2.items) }
    ensures count { IfOk result (λ d. (pass_count d.0 ≡ passes) × (length d.2.items ≡ passes)) }
    ensures fresh { IfOk result (λ d. All (λ p. calls p ≡ []) d.2.items) }
    ensures opened { IfOk result (λ d. IsNewHome incarnation (home_of d.0)) }
    ensures cause { IfErr result (λ fault. fault ≡ LiveFault.NoRoom) }
{
    let Ok(store) = Store::open(alloc, incarnation, 0, RING) else {
        return Err(LiveFault::NoRoom);
    };
    let Ok(store) = Box::new(alloc, store) else {
        return Err(LiveFault::NoRoom);
    };
    let Ok(room) = AccountRoom::new(alloc) else {
        return Err(LiveFault::NoRoom);
    };
    match Desk::<Box<Store>>::open(alloc, store, passes, 0) {
        Ok((desk, passes)) => Ok((desk, room, passes.into_vec())),
        Err(_) => Err(LiveFault::NoRoom),
    }
}

/// Makes a job for each pass of the first desk. Fails only if memory runs out.
///
/// Publishers have the first numbers, then come the subscribers, then the worker that exchanges, which gets the pass of the second desk.
/// Worker 0 has the last job of the list. The lists of passes keep their capacity.
pub(crate) fn hire<'e, R: Wait, G: Gate>(
    rt: &'e R,
    alloc: Global,
    gate: &'e G,
    given_up: &'e GivenUp,
    desks: &'e Desks<Desk<Box<Store>>>,
    sizes: Sizes,
    back: &mut Back<Pass<Box<Store>>>,
) -> Result<Vec<StoreTurns<'e, R, G>>, LiveFault>
    requires fit { IsTrue (are_fit sizes) }
    requires passes { All (λ p. IsAtHome (home_of desks.now.first) p) back.old.passes.items }
    requires others { All (λ p. IsAtHome (home_of desks.now.second) p) back.old.others.items }
    requires fresh { All (λ p. calls p ≡ []) back.old.passes.items × All (λ p. calls p ≡ []) back.old.others.items }
    requires none { back.old.followers.items ≡ [] }
    requires count { (length back.old.passes.items ≡ sizes.publishers + sizes.subscribers + 1) × (length back.old.others.items ≡ 1) }
    ensures can_run { IfOk result (λ js. All (λ j. IsOf (home_of j.desks.now.first) (home_of j.desks.now.second) j.worker) js.items) }
    ensures of_desks { IfOk result (λ js. All (λ j. IsOf (home_of desks.now.first) (home_of desks.now.second) j.worker) js.items) }
    ensures all { IfOk result (λ js. length js.items ≡ length back.old.passes.items) }
    ensures one { IfOk result (λ js. sum_by (λ j. others_in j.worker.task) js.items ≡ 1) }
    ensures ready { IfOk result (λ js. All (λ j. IsReady sizes (plain j.worker)) js.items) }
    ensures numbered { IfOk result (λ js. map (λ j. j.worker.index) js.items ≡ downward (length js.items)) }
    ensures gates { IfOk result (λ js. All (λ j. j.gate.now ≡ gate.now) js.items) }
    ensures taken { IfOk result (λ js.
        (back.new.passes.items ≡ []) × (back.new.others.items ≡ []) × (back.new.followers.items ≡ [])) }
    ensures room { (length back.old.passes.items ≤ vec_capacity back.new.passes) × (1 ≤ vec_capacity back.new.others) }
    ensures cause { IfErr result (λ fault. fault ≡ LiveFault.NoRoom) }
{
    let Ok(mut jobs) = Vec::with_capacity(alloc, back.passes.len()) else {
        return Err(LiveFault::NoRoom);
    };
    let Some(pass) = back.passes.pop() else {
        unreachable!()
    };
    let Some(other) = back.others.pop() else {
        unreachable!()
    };
    jobs.push_reserved(Turns {
        rt,
        alloc,
        gate,
        given_up,
        desks,
        worker: Worker {
            index: back.passes.len() as u32,
            turns: sizes.changes,
            pass,
            task: Task::Exchange {
                other,
                cursor: None,
            },
            fault: None,
        },
    });
    while let Some(pass) = back.passes.pop() {
        let index = back.passes.len() as u32;
        let task = task_of(alloc, sizes, index, &pass)?;
        jobs.push_reserved(Turns {
            rt,
            alloc,
            gate,
            given_up,
            desks,
            worker: Worker {
                index,
                turns: sizes.changes,
                pass,
                task,
                fault: None,
            },
        });
    }
    Ok(jobs)
}

// Returns the task of a worker before the last. Subscriber s follows all keys by its server's first subscription, 8 s.
fn task_of(
    alloc: Global,
    sizes: Sizes,
    index: u32,
    pass: &Pass<Box<Store>>,
) -> Result<Task<Pass<Box<Store>>>, LiveFault>
    requires fit { IsTrue (are_fit sizes) }
    requires index { index < sizes.publishers + sizes.subscribers }
    ensures task { IfOk result (λ task. (second : Home) → IsTask second index pass.now task) }
    ensures none { IfOk result (λ task. others_in task ≡ 0) }
    ensures ready { IfOk result (IsHired sizes index) }
    ensures publishes { index < sizes.publishers → IfOk result (λ task. task ≡ Task.Publish) }
    ensures follows { sizes.publishers ≤ index →
        IfOk result (λ task. task ≡ Task.Follow (new_follower (8 * (index - sizes.publishers)) every_key)) }
    ensures cause { IfErr result (λ fault. fault ≡ LiveFault.NoRoom) }
{
    if index < sizes.publishers {
        return Ok(Task::Publish);
    }
    let sub = 8 * (index - sizes.publishers);
    match Follower::new(alloc, sub, everything(alloc)?) {
        Ok(follower) => Ok(Task::Follow(follower)),
        Err(_) => Err(LiveFault::NoRoom),
    }
}
