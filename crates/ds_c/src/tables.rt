//! The calls on a server's driver table.

ghost use Rattle.std.specs.Prelude.{◌≡◌};
ghost use Rattle.std.specs.declared.option.Option.TheVariants.{None};
ghost use Rattle.c_store.specs.Calls.{TableAssigns, TableFollows, TableSubmits, TableReplies};
ghost use Rattle.ds_c.specs.Tables.{OpensTable, OpenedTable, CallsTable, CallsWithMap, CallsByMap, FetchesMoves};
ghost use Rattle.ds_c.specs.Calls.{Closes};

use crate::map_handle::MapHandle;
use crate::table_handle::TableHandle;
use crate::words::{DONE, IS_CLOSED, IS_OPEN};
use c_store::{ServerTable, TableMove};
use c_values::{Answer, refusal_number};
use ds_machine::Refusal;
use std::alloc::Global;

/// Makes an empty table of a server in a closed handle: 0 a file server, 1 a network server. Returns 0, the number of the refusal, or that
/// the handle has a table.
#[unsafe(no_mangle)]
pub extern "C" fn ds_table_new(alloc: Global, handle: &mut TableHandle, server: u32) -> u32
    ensures { OpensTable server handle.old.value result handle.new.value }
{
    match handle.take(alloc) {
        None => new_table_in(alloc, handle, server),
        Some(table) => {
            handle.put(alloc, table);
            IS_OPEN
        }
    }
}

#[tactic(auto, using(crate::proofs::TableLemmas::number_few))]
fn new_table_in(alloc: Global, handle: &mut TableHandle, server: u32) -> u32
    requires { handle.old.value ≡ None }
    ensures { OpenedTable server result handle.new.value }
{
    match ServerTable::new(alloc, server) {
        Some(table) => match Box::new(alloc, table) {
            Ok(table) => {
                handle.put(alloc, table);
                DONE
            }
            Err(_) => refusal_number(Refusal::NoRoom),
        },
        None => refusal_number(Refusal::BadKind),
    }
}

/// Assigns a unit to the driver with a label.
#[unsafe(no_mangle)]
pub extern "C" fn ds_table_assign(
    alloc: Global,
    handle: &mut TableHandle,
    unit: u8,
    service_class: u8,
    label: &[u8],
    answer: &mut Answer,
) -> u32
    ensures { CallsTable (TableAssigns unit service_class label.now) handle.old.value answer.old result answer.new handle.new.value }
{
    match handle.take(alloc) {
        None => IS_CLOSED,
        Some(mut table) => {
            table.assign(unit, service_class, label, answer);
            handle.put(alloc, table);
            DONE
        }
    }
}

/// Lets the table follow a map. The moves that follow are kept for `ds_table_moves`.
#[unsafe(no_mangle)]
pub extern "C" fn ds_table_follow(
    alloc: Global,
    handle: &mut TableHandle,
    map: &mut MapHandle,
    answer: &mut Answer,
) -> u32
    ensures told { CallsWithMap TableFollows map.old.value handle.old.value answer.old result answer.new handle.new.value }
    ensures map { map.new.value ≡ map.old.value }
{
    match handle.take(alloc) {
        None => IS_CLOSED,
        Some(mut table) => {
            let word = follow_by(alloc, &mut table, map, answer);
            handle.put(alloc, table);
            word
        }
    }
}

fn follow_by(
    alloc: Global,
    table: &mut ServerTable,
    map: &mut MapHandle,
    answer: &mut Answer,
) -> u32
    ensures told { CallsByMap TableFollows map.old.value table.old answer.old result answer.new table.new }
    ensures map { map.new.value ≡ map.old.value }
{
    match map.take(alloc) {
        None => IS_CLOSED,
        Some(taken) => {
            table.follow(&taken, answer);
            map.put(alloc, taken);
            DONE
        }
    }
}

/// Lets the table follow a map, and then submits a request to a unit. The moves are kept for `ds_table_moves`.
#[unsafe(no_mangle)]
pub extern "C" fn ds_table_submit(
    alloc: Global,
    handle: &mut TableHandle,
    map: &mut MapHandle,
    id: u64,
    unit: u8,
    answer: &mut Answer,
) -> u32
    ensures told { CallsWithMap (λ held. TableSubmits held id unit)
        map.old.value handle.old.value answer.old result answer.new handle.new.value }
    ensures map { map.new.value ≡ map.old.value }
{
    match handle.take(alloc) {
        None => IS_CLOSED,
        Some(mut table) => {
            let word = submit_by(alloc, &mut table, map, id, unit, answer);
            handle.put(alloc, table);
            word
        }
    }
}

fn submit_by(
    alloc: Global,
    table: &mut ServerTable,
    map: &mut MapHandle,
    id: u64,
    unit: u8,
    answer: &mut Answer,
) -> u32
    ensures told { CallsByMap (λ held. TableSubmits held id unit) map.old.value table.old answer.old result answer.new table.new }
    ensures map { map.new.value ≡ map.old.value }
{
    match map.take(alloc) {
        None => IS_CLOSED,
        Some(taken) => {
            table.submit(&taken, id, unit, answer);
            map.put(alloc, taken);
            DONE
        }
    }
}

/// Takes a driver's reply to a request. The move that answers the request is kept for `ds_table_moves`.
#[unsafe(no_mangle)]
pub extern "C" fn ds_table_reply(
    alloc: Global,
    handle: &mut TableHandle,
    generation: u32,
    slot: u16,
    id: u64,
    answer: &mut Answer,
) -> u32
    ensures { CallsTable (TableReplies generation slot id) handle.old.value answer.old result answer.new handle.new.value }
{
    match handle.take(alloc) {
        None => IS_CLOSED,
        Some(mut table) => {
            table.reply(generation, slot, id, answer);
            handle.put(alloc, table);
            DONE
        }
    }
}

/// Writes the moves of the last answer to a buffer, from the one at index `first` on: as many as fit. `given` has their number. The rest is
/// kept for the next such call.
#[unsafe(no_mangle)]
pub extern "C" fn ds_table_moves(
    alloc: Global,
    handle: &mut TableHandle,
    first: usize,
    moves: &mut [TableMove],
    given: &mut usize,
) -> u32
    ensures moves { FetchesMoves handle.old.value first moves.old given.old result moves.new given.new }
    ensures handle { handle.new.value ≡ handle.old.value }
{
    match handle.take(alloc) {
        None => IS_CLOSED,
        Some(table) => {
            *given = table.give(first, moves);
            handle.put(alloc, table);
            DONE
        }
    }
}

/// Closes an open handle, and frees its memory.
#[unsafe(no_mangle)]
pub extern "C" fn ds_table_close(alloc: Global, handle: &mut TableHandle) -> u32
    ensures { Closes handle.old.value result handle.new.value }
{
    match handle.take(alloc) {
        None => IS_CLOSED,
        Some(table) => {
            drop(table);
            DONE
        }
    }
}
