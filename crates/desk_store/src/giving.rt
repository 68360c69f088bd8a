//! Merges of many items into a store.

ghost use Rattle.std.specs.Prelude.{◌≡◌, ◌≤◌, length, take, drop, IfOk, IfErr, OnOk};
ghost use Rattle.desk_store.specs.ExchangeFaults.{IsGivingFault};
ghost use Rattle.desk_store.specs.Giving.{GivesAll, SeatGivesOnly};

use crate::client_seat::ClientSeat;
use crate::exchange_fault::ExchangeFault;
use crate::merging::merge;
use ds_entry::Items;
use ds_names::NoRoom;
use ds_names::limits::MOST_ITEMS;
use std::mem;

/// Merges the items in order, at most 256 at a time. Returns how many of them took effect.
pub(crate) fn give<S: ClientSeat>(seat: &mut S, items: Items) -> Result<usize, ExchangeFault>
    ensures only { SeatGivesOnly (S.seat seat.old) (S.seat seat.new) items }
    ensures given { IfOk result (GivesAll (S.seat seat.old).pass (S.seat seat.new).pass items) }
    ensures fault { IfErr result (IsGivingFault (S.seat seat.old).pass (S.seat seat.new).pass items) }
{
    let _most = items.len();
    let mut rest = items;
    let mut taken = 0usize;
    while rest.len() > MOST_ITEMS {
        let part = first_part(&mut rest)?;
        let count = merge(seat, part)?;
        taken += count;
    }
    if rest.len() == 0 {
        return Ok(taken);
    }
    let count = merge(seat, rest)?;
    Ok(taken + count)
}

// Removes the first 256 items from the list, which has at least as many, and returns them. Fails only if memory runs out.
fn first_part(items: &mut Items) -> Result<Items, NoRoom>
    requires { 256 ≤ length items.old }
    ensures part { IfOk result (λ part. part ≡ take 256 items.old) }
    ensures rest { OnOk result (items.new ≡ drop 256 items.old) }
{
    let rest = items.split_off(MOST_ITEMS)?;
    Ok(mem::replace(items, rest))
}
