//! The calls on a subscriber's map.

ghost use Rattle.std.specs.Prelude.{◌≡◌};
ghost use Rattle.std.specs.declared.option.Option.TheVariants.{None};
ghost use Rattle.c_holders.specs.Agree.{HandlesAgree};
ghost use Rattle.ds_c.specs.Maps.{OpensMap, OpenedMap, TakesInMap, FindsInMap};
ghost use Rattle.ds_c.specs.Calls.{Closes};

use crate::map_handle::MapHandle;
use crate::words::{DONE, IS_CLOSED, IS_OPEN};
use c_holders::handles_agree;
use c_store::{label_in, new_map, take_lines};
use c_values::{Answer, refusal_number};
use ds_machine::Refusal;
use std::alloc::Global;

/// Makes the map of a pattern and a sum of kinds in a closed handle. Returns 0, the number of the refusal, or that the handle has a map.
#[unsafe(no_mangle)]
pub extern "C" fn ds_map_new(
    alloc: Global,
    handle: &mut MapHandle,
    kinds: u8,
    pattern: &[u8],
) -> u32
    ensures opens { OpensMap kinds pattern.now handle.old.value result handle.new.value }
    ensures agree { HandlesAgree }
{
    handles_agree();
    match handle.take(alloc) {
        None => new_in(alloc, handle, kinds, pattern),
        Some(map) => {
            handle.put(alloc, map);
            IS_OPEN
        }
    }
}

fn new_in(alloc: Global, handle: &mut MapHandle, kinds: u8, pattern: &[u8]) -> u32
    requires { handle.old.value ≡ None }
    ensures { OpenedMap kinds pattern.now result handle.new.value }
{
    match new_map(alloc, kinds, pattern) {
        Ok(map) => match Box::new(alloc, map) {
            Ok(map) => {
                handle.put(alloc, map);
                DONE
            }
            Err(_) => refusal_number(Refusal::NoRoom),
        },
        Err(cause) => refusal_number(cause),
    }
}

/// Merges the items whose lines a text is into the map.
#[unsafe(no_mangle)]
pub extern "C" fn ds_map_take(
    alloc: Global,
    handle: &mut MapHandle,
    lines: &[u8],
    answer: &mut Answer,
) -> u32
    ensures { TakesInMap handle.old.value lines.now answer.old result answer.new handle.new.value }
{
    match handle.take(alloc) {
        None => IS_CLOSED,
        Some(mut map) => {
            *answer = take_lines(alloc, &mut map, lines);
            handle.put(alloc, map);
            DONE
        }
    }
}

/// Finds where the label of a name is.
#[unsafe(no_mangle)]
pub extern "C" fn ds_map_label(
    alloc: Global,
    handle: &mut MapHandle,
    name: &[u8],
    answer: &mut Answer,
) -> u32
    ensures told { FindsInMap handle.old.value name.now answer.old result answer.new }
    ensures handle { handle.new.value ≡ handle.old.value }
{
    match handle.take(alloc) {
        None => IS_CLOSED,
        Some(map) => {
            *answer = label_in(&map, name);
            handle.put(alloc, map);
            DONE
        }
    }
}

/// Closes an open handle, and frees its memory.
#[unsafe(no_mangle)]
pub extern "C" fn ds_map_close(alloc: Global, handle: &mut MapHandle) -> u32
    ensures { Closes handle.old.value result handle.new.value }
{
    match handle.take(alloc) {
        None => IS_CLOSED,
        Some(map) => {
            drop(map);
            DONE
        }
    }
}
