//! The calls on the processes of RS's services.

ghost use Rattle.std.specs.Prelude.{◌≡◌};
ghost use Rattle.ds_c.specs.Keepers.{KeepsEventAt, NotesAt, NotesWrittenAt, OpensKeepersAt, ReadsDueAt, ReadsTaskAt, ReadsToWriteAt};
ghost use Rattle.ds_c.specs.Keepers.{ReportsAt, VouchesIn};

use crate::handle::Handle;
use crate::services::write_part;
use crate::words::IS_CLOSED;
use c_keeper::KeeperTask;
use c_rs::RsEvent;
use c_values::Answer;
use std::alloc::Global;

/// Opens keepers of the processes of RS's services, beside RS in an open handle. Returns 0, or the number of the first refusal.
#[unsafe(no_mangle)]
pub extern "C" fn ds_keeper_open(alloc: Global, handle: &mut Handle) -> u32
    ensures { OpensKeepersAt handle.old.value result handle.new.value }
{
    match handle.take(alloc) {
        None => IS_CLOSED,
        Some(mut session) => {
            let word = session.open_keepers(alloc);
            handle.put(alloc, session);
            word
        }
    }
}

/// Reports an event to RS and its store, and has the processes of each service follow: an instance that RS stops gets the deadline.
#[unsafe(no_mangle)]
pub extern "C" fn ds_keeper_event(
    alloc: Global,
    handle: &mut Handle,
    event: &RsEvent,
    deadline: u64,
    answer: &mut Answer,
) -> u32
    ensures { KeepsEventAt handle.old.value event.now deadline answer.old result answer.new handle.new.value }
{
    match handle.take(alloc) {
        None => IS_CLOSED,
        Some(mut session) => {
            let word = session.keep_event(event, deadline, answer);
            handle.put(alloc, session);
            word
        }
    }
}

/// Reports to RS that the instance of the service at an index died, from this cause, and has the processes of each service follow.
#[unsafe(no_mangle)]
pub extern "C" fn ds_keeper_report(
    alloc: Global,
    handle: &mut Handle,
    service: usize,
    cause: u32,
    tick: u64,
    now: u64,
    answer: &mut Answer,
) -> u32
    ensures { ReportsAt handle.old.value service cause tick now answer.old result answer.new handle.new.value }
{
    match handle.take(alloc) {
        None => IS_CLOSED,
        Some(mut session) => {
            let word = session.report(service, cause, tick, now, answer);
            handle.put(alloc, session);
            word
        }
    }
}

/// Has RS hear a heartbeat of the service at an index, if its start is pending.
#[unsafe(no_mangle)]
pub extern "C" fn ds_keeper_vouch(
    alloc: Global,
    handle: &mut Handle,
    service: usize,
    tick: u64,
) -> u32
    ensures { VouchesIn handle.old.value service tick result handle.new.value }
{
    match handle.take(alloc) {
        None => IS_CLOSED,
        Some(mut session) => {
            let word = session.vouch(service, tick);
            handle.put(alloc, session);
            word
        }
    }
}

/// Notes what was done to the processes of the service at an index, or seen of them: an input of a kind, with its value.
#[unsafe(no_mangle)]
pub extern "C" fn ds_keeper_note(
    alloc: Global,
    handle: &mut Handle,
    service: usize,
    kind: u32,
    value: u64,
) -> u32
    ensures { NotesAt handle.old.value service kind value result handle.new.value }
{
    match handle.take(alloc) {
        None => IS_CLOSED,
        Some(mut session) => {
            let word = session.note(service, kind, value);
            handle.put(alloc, session);
            word
        }
    }
}

/// Writes what is to be done at this time about the processes of one service.
#[unsafe(no_mangle)]
pub extern "C" fn ds_keeper_task(
    alloc: Global,
    handle: &mut Handle,
    now: u64,
    task: &mut KeeperTask,
) -> u32
    ensures read { ReadsTaskAt handle.old.value now task.old result task.new }
    ensures handle { handle.new.value ≡ handle.old.value }
{
    match handle.take(alloc) {
        None => IS_CLOSED,
        Some(session) => {
            let part = session.task(now);
            handle.put(alloc, session);
            write_part(part, task)
        }
    }
}

/// Writes the first time after this one at which there may be another task without a note.
#[unsafe(no_mangle)]
pub extern "C" fn ds_keeper_due(alloc: Global, handle: &mut Handle, now: u64, at: &mut u64) -> u32
    ensures read { ReadsDueAt handle.old.value now at.old result at.new }
    ensures handle { handle.new.value ≡ handle.old.value }
{
    match handle.take(alloc) {
        None => IS_CLOSED,
        Some(session) => {
            let part = session.due(now);
            handle.put(alloc, session);
            write_part(part, at)
        }
    }
}

/// Writes the generation that the file is to have before another instance is started.
#[unsafe(no_mangle)]
pub extern "C" fn ds_keeper_to_write(
    alloc: Global,
    handle: &mut Handle,
    generation: &mut u64,
) -> u32
    ensures read { ReadsToWriteAt handle.old.value generation.old result generation.new }
    ensures handle { handle.new.value ≡ handle.old.value }
{
    match handle.take(alloc) {
        None => IS_CLOSED,
        Some(session) => {
            let part = session.to_write();
            handle.put(alloc, session);
            write_part(part, generation)
        }
    }
}

/// Notes that the file has this generation.
#[unsafe(no_mangle)]
pub extern "C" fn ds_keeper_written(alloc: Global, handle: &mut Handle, generation: u64) -> u32
    ensures { NotesWrittenAt handle.old.value generation result handle.new.value }
{
    match handle.take(alloc) {
        None => IS_CLOSED,
        Some(mut session) => {
            let word = session.note_written(generation);
            handle.put(alloc, session);
            word
        }
    }
}
