//! The script that brings a store back.

ghost use Rattle.std.specs.Prelude.{◌≡◌, ◌++◌, ◌<◌, ◌^◌, length, map, take, OnOk, OnErr, IfSome};
ghost use Rattle.std.specs.List.{flat_map};
ghost use Rattle.script_commands.specs.declared.command.ScriptCommand.TheVariants.{Offer};
ghost use Rattle.ds_script.specs.Saved.{command_line, next_incarnation, restarting, saved_script};

use crate::session::Session;
use ds_entry::{Item, Items};
use ds_line::{append, append_item, append_numbers};
use ds_names::NoRoom;
use ds_replica::Side;
use std::alloc::Global;

/// Appends a script that makes a new session hold, at side a, what the current store holds: its store gets an incarnation
/// after those of both stores, and then each item as an offer, floors first. Maps, messages, subscriptions, RS, the
/// driver tables and the other store aren't saved. Past incarnation 2^64 - 1 the first line is missing.
///
/// If memory runs out, nothing is appended.
pub fn append_saved(alloc: Global, session: &Session, output: &mut Vec<u8>) -> Result<(), NoRoom>
    ensures saved { OnOk result (output.new.items ≡ output.old.items ++ saved_script session.now) }
    ensures unsaved { OnErr result (output.new.items ≡ output.old.items) }
{
    let start = output.len();
    let written = append_lines(alloc, session, output);
    if written.is_err() {
        output.truncate(start);
    }
    written
}

// Likewise, but if memory runs out, some of it may be appended.
fn append_lines(alloc: Global, session: &Session, output: &mut Vec<u8>) -> Result<(), NoRoom>
    ensures saved { OnOk result (output.new.items ≡ output.old.items ++ saved_script session.now) }
    ensures kept { OnErr result (take (length output.old.items) output.new.items ≡ output.old.items) }
{
    let items = session.held().all(alloc)?;
    append_restarting(output, next_of(session))?;
    append_offers(output, &items)
}

// Returns the incarnation after those of both stores.
fn next_of(session: &Session) -> Option<u64>
    ensures { result ≡ next_incarnation session.now }
{
    let a = session.incarnation(Side::A);
    let b = session.incarnation(Side::B);
    let last = if a < b { b } else { a };
    if last < u64::MAX {
        Some(last + 1)
    } else {
        None
    }
}

// Appends the line that gives side a the incarnation, or nothing.
fn append_restarting(output: &mut Vec<u8>, incarnation: Option<u64>) -> Result<(), NoRoom>
    ensures written { OnOk result (output.new.items ≡ output.old.items ++ flat_map command_line (restarting incarnation)) }
    ensures unwritten { OnErr result (output.new.items ≡ output.old.items) }
{
    match incarnation {
        Some(number) => append_numbers(output, &[(b"restart a ", number)]),
        None => Ok(()),
    }
}

// Appends an offer of each item. If memory runs out, some may be appended.
fn append_offers(output: &mut Vec<u8>, items: &Items) -> Result<(), NoRoom>
    ensures written { OnOk result (output.new.items ≡ output.old.items ++ flat_map command_line (map Offer items.now)) }
    ensures kept { OnErr result (take (length output.old.items) output.new.items ≡ output.old.items) }
{
    for item in items.as_slice() {
        append_offer(output, item)?;
    }
    Ok(())
}

// Appends the offer of an item. If memory runs out, nothing is appended.
fn append_offer(output: &mut Vec<u8>, item: &Item) -> Result<(), NoRoom>
    ensures written { OnOk result (output.new.items ≡ output.old.items ++ command_line (Offer item.now)) }
    ensures unwritten { OnErr result (output.new.items ≡ output.old.items) }
{
    let start = output.len();
    let written = put_offer(output, item);
    if written.is_err() {
        output.truncate(start);
    }
    written
}

// Likewise, but if memory runs out, its word may be appended.
fn put_offer(output: &mut Vec<u8>, item: &Item) -> Result<(), NoRoom>
    ensures written { OnOk result (output.new.items ≡ output.old.items ++ command_line (Offer item.now)) }
    ensures kept { OnErr result (take (length output.old.items) output.new.items ≡ output.old.items) }
{
    append(output, b"offer ")?;
    append_item(output, item)
}
