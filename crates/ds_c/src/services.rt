//! The calls on RS beside a store.

ghost use Rattle.std.specs.Prelude.{◌≡◌, cond};
ghost use Rattle.ds_c.specs.Services.{EventsReach, FindsComplainer, FindsConnector, FindsPublisher, OpensServices};
ghost use Rattle.ds_c.specs.Services.{ReadsAction, ReadsDueTick, ReadsNext, ReadsService, ReadsPart, not_allowed};
ghost use Rattle.ds_c.specs.Calls.{done};

use crate::handle::Handle;
use crate::words::{DONE, IS_CLOSED, NOT_ALLOWED, NOT_FOUND};
use c_rs::{RsAction, RsEvent, RsService, SettingsRefusal};
use c_values::Answer;
use std::alloc::Global;

/// Opens RS beside the store of an open handle, with a settings text, the generation of the first start and the first slot. Returns 0, or
/// the number of the first refusal; `fault` says where a text is refused.
#[unsafe(no_mangle)]
pub extern "C" fn ds_rs_open(
    alloc: Global,
    handle: &mut Handle,
    settings: &[u8],
    next: u32,
    slot: u16,
    fault: &mut SettingsRefusal,
) -> u32
    ensures { OpensServices handle.old.value settings.now next slot fault.old result fault.new handle.new.value }
{
    match handle.take(alloc) {
        None => IS_CLOSED,
        Some(mut session) => {
            let word = session.rs.open_rs(alloc, settings, next, slot, fault);
            handle.put(alloc, session);
            word
        }
    }
}

/// Reports an event to RS, and passes its label changes and sweeps to the store. The actions are kept for `ds_rs_action`.
#[unsafe(no_mangle)]
pub extern "C" fn ds_rs_event(
    alloc: Global,
    handle: &mut Handle,
    event: &RsEvent,
    answer: &mut Answer,
) -> u32
    ensures { EventsReach handle.old.value event.now answer.old result answer.new handle.new.value }
{
    match handle.take(alloc) {
        None => IS_CLOSED,
        Some(mut session) => {
            session.serve_event(event, answer);
            handle.put(alloc, session);
            DONE
        }
    }
}

/// Writes the action of the last answer at an index, from 0.
#[unsafe(no_mangle)]
pub extern "C" fn ds_rs_action(
    alloc: Global,
    handle: &mut Handle,
    index: usize,
    action: &mut RsAction,
) -> u32
    ensures read { ReadsAction handle.old.value index action.old result action.new }
    ensures handle { handle.new.value ≡ handle.old.value }
{
    match handle.take(alloc) {
        None => IS_CLOSED,
        Some(session) => {
            let part = session.rs.action(index);
            handle.put(alloc, session);
            write_part(part, action)
        }
    }
}

/// Writes what RS knows of the service at an index of the settings, from 0.
#[unsafe(no_mangle)]
pub extern "C" fn ds_rs_service(
    alloc: Global,
    handle: &mut Handle,
    index: usize,
    service: &mut RsService,
) -> u32
    ensures read { ReadsService handle.old.value index service.old result service.new }
    ensures handle { handle.new.value ≡ handle.old.value }
{
    match handle.take(alloc) {
        None => IS_CLOSED,
        Some(session) => {
            let part = session.rs.service(index);
            handle.put(alloc, session);
            write_part(part, service)
        }
    }
}

/// Writes the first tick that has actions.
#[unsafe(no_mangle)]
pub extern "C" fn ds_rs_due(alloc: Global, handle: &mut Handle, tick: &mut u64) -> u32
    ensures read { ReadsDueTick handle.old.value tick.old result tick.new }
    ensures handle { handle.new.value ≡ handle.old.value }
{
    match handle.take(alloc) {
        None => IS_CLOSED,
        Some(session) => {
            let part = session.rs.due();
            handle.put(alloc, session);
            write_part(part, tick)
        }
    }
}

/// Writes the generation that the next start takes.
#[unsafe(no_mangle)]
pub extern "C" fn ds_rs_next(alloc: Global, handle: &mut Handle, generation: &mut u32) -> u32
    ensures read { ReadsNext handle.old.value generation.old result generation.new }
    ensures handle { handle.new.value ≡ handle.old.value }
{
    match handle.take(alloc) {
        None => IS_CLOSED,
        Some(session) => {
            let part = session.rs.next_generation();
            handle.put(alloc, session);
            write_part(part, generation)
        }
    }
}

/// Judges whether the instance with an endpoint may publish under the key of a kind and a name. Returns 0 or NotAllowed.
#[unsafe(no_mangle)]
pub extern "C" fn ds_rs_may_publish(
    alloc: Global,
    handle: &mut Handle,
    generation: u32,
    slot: u16,
    kind: u8,
    name: &[u8],
) -> u32
    ensures judged { FindsPublisher handle.old.value generation slot kind name.now result }
    ensures handle { handle.new.value ≡ handle.old.value }
{
    match handle.take(alloc) {
        None => IS_CLOSED,
        Some(session) => {
            let may = session.rs.may_publish(generation, slot, kind, name);
            handle.put(alloc, session);
            judgement(may)
        }
    }
}

/// Judges whether the instance with an endpoint may complain of the service with a label. Returns 0 or NotAllowed.
#[unsafe(no_mangle)]
pub extern "C" fn ds_rs_may_complain(
    alloc: Global,
    handle: &mut Handle,
    generation: u32,
    slot: u16,
    label: &[u8],
) -> u32
    ensures judged { FindsComplainer handle.old.value generation slot label.now result }
    ensures handle { handle.new.value ≡ handle.old.value }
{
    match handle.take(alloc) {
        None => IS_CLOSED,
        Some(session) => {
            let may = session.rs.may_complain(generation, slot, label);
            handle.put(alloc, session);
            judgement(may)
        }
    }
}

/// Judges whether the instance with an endpoint may connect to the service with a label. Returns 0 or NotAllowed.
#[unsafe(no_mangle)]
pub extern "C" fn ds_rs_may_connect(
    alloc: Global,
    handle: &mut Handle,
    generation: u32,
    slot: u16,
    label: &[u8],
) -> u32
    ensures judged { FindsConnector handle.old.value generation slot label.now result }
    ensures handle { handle.new.value ≡ handle.old.value }
{
    match handle.take(alloc) {
        None => IS_CLOSED,
        Some(session) => {
            let may = session.rs.may_connect(generation, slot, label);
            handle.put(alloc, session);
            judgement(may)
        }
    }
}

// Returns the number of a judgement.
fn judgement(may: bool) -> u32
    ensures { result ≡ cond may done not_allowed }
{
    if may { DONE } else { NOT_ALLOWED }
}

/// Writes a part, if there is one.
pub(crate) fn write_part<T: Copy>(part: Option<T>, place: &mut T) -> u32
    ensures { ReadsPart part place.old result place.new }
{
    match part {
        Some(part) => {
            *place = part;
            DONE
        }
        None => NOT_FOUND,
    }
}
