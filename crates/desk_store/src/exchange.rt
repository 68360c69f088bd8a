//! One exchange between the stores of two desks, each the desk of a store or of RS and its store.

ghost use Rattle.std.specs.Prelude.{None, Some, IfOk, IfErr};
ghost use Rattle.desk_store.specs.Exchange.{Exchanges, SeatsExchangeOnly};
ghost use Rattle.desk_store.specs.ExchangeFaults.{IsExchangeFault};

use crate::client_seat::ClientSeat;
use crate::exchange_calls::{page, since};
use crate::exchange_fault::ExchangeFault;
use crate::giving::give;
use ds_feed::{Cursor, Page, Since};
use ds_machine::Scope;
use ds_names::limits::MOST_ITEMS;
use ds_reader::go_past;
use std::sync::Wait;

/// The result of an exchange.
#[derive(Clone, Copy, PartialEq, Eq)]
pub struct Exchanged {
    /// The cursor for the next exchange.
    pub cursor: Cursor,
    /// How many items were merged into the second store.
    pub done: u128,
    /// How many of them took effect.
    pub taken: u128,
    /// Whether the first store may have more items after the cursor.
    pub more: bool,
}

/// Sends items from the store at seat `a` to the store at seat `b`, while others call both. May wait.
///
/// With a cursor, sends at most 256 items of the journal of `a` from there on, and `more` says whether there were 256. Without one, sends
/// all that `a` holds, by pages of 256, and the next cursor is the first page's. The items go to `b` in Merges of at most 256. From then
/// on `b` holds each of them, or an item that covers it. Fails with `Refused(Behind)` if the journal of `a` doesn't reach back to the
/// cursor; the caller should then begin again without one.
pub fn exchange_once<W: Wait, A: ClientSeat, B: ClientSeat>(
    rt: &W,
    a: &mut A,
    b: &mut B,
    from: Option<Cursor>,
) -> Result<Exchanged, ExchangeFault>
    ensures only { SeatsExchangeOnly (A.seat a.old) (A.seat a.new) (B.seat b.old) (B.seat b.new) from }
    ensures exchanged { IfOk result (Exchanges (A.seat a.old).pass (A.seat a.new).pass (B.seat b.old).pass (B.seat b.new).pass from) }
    ensures fault { IfErr result (IsExchangeFault (A.seat a.old).pass (A.seat a.new).pass (B.seat b.old).pass (B.seat b.new).pass) }
{
    match from {
        Some(cursor) => exchange_since(a, b, cursor),
        None => exchange_pages(rt, a, b),
    }
}

// Sends what took effect from the cursor on.
fn exchange_since<A: ClientSeat, B: ClientSeat>(
    a: &mut A,
    b: &mut B,
    from: Cursor,
) -> Result<Exchanged, ExchangeFault>
    ensures only { SeatsExchangeOnly (A.seat a.old) (A.seat a.new) (B.seat b.old) (B.seat b.new) (Some from) }
    ensures exchanged { IfOk result
        (Exchanges (A.seat a.old).pass (A.seat a.new).pass (B.seat b.old).pass (B.seat b.new).pass (Some from)) }
    ensures fault { IfErr result (IsExchangeFault (A.seat a.old).pass (A.seat a.new).pass (B.seat b.old).pass (B.seat b.new).pass) }
{
    let Since { items, cursor } = since(a, Scope::All, from, MOST_ITEMS as u32)?;
    let done = items.len();
    let taken = give(b, items)?;
    Ok(Exchanged {
        cursor,
        done: done as u128,
        taken: taken as u128,
        more: done >= MOST_ITEMS,
    })
}

// Sends all that is held, page by page.
fn exchange_pages<W: Wait, A: ClientSeat, B: ClientSeat>(
    rt: &W,
    a: &mut A,
    b: &mut B,
) -> Result<Exchanged, ExchangeFault>
    ensures only { SeatsExchangeOnly (A.seat a.old) (A.seat a.new) (B.seat b.old) (B.seat b.new) None }
    ensures exchanged { IfOk result (Exchanges (A.seat a.old).pass (A.seat a.new).pass (B.seat b.old).pass (B.seat b.new).pass None) }
    ensures fault { IfErr result (IsExchangeFault (A.seat a.old).pass (A.seat a.new).pass (B.seat b.old).pass (B.seat b.new).pass) }
{
    let mut done = 0u128;
    let mut taken = 0u128;
    let mut after = None;
    let mut first = None;
    for _ in rt.forever() {
        let Page {
            items,
            last,
            cursor,
        } = page(a, Scope::All, after, MOST_ITEMS as u32)?;
        go_past(&mut after, &items);
        let from = first.unwrap_or(cursor);
        let count = items.len();
        let given = give(b, items)?;
        done += count as u128;
        taken += given as u128;
        if last {
            return Ok(Exchanged {
                cursor: from,
                done,
                taken,
                more: false,
            });
        }
        first = Some(from);
    }
    unreachable!()
}
