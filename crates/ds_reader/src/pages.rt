//! Reading a store by pages.

ghost use Rattle.std.specs.Prelude.{◌≡◌, Err, IfOk, OnOk, IfErr};
ghost use Rattle.ds_reader.specs.Asked.{ComesTo};
ghost use Rattle.ds_reader.specs.CaughtUp.{IsCaughtUp};
ghost use Rattle.ds_reader.specs.GivesUp.{StopsPages, StopsSinces};
ghost use Rattle.ds_reader.specs.Questions.{AsksByPages, AsksFew, IsSinceOf};
ghost use Rattle.ds_reader.specs.ReadWhole.{AreRead, IsReadWhole};

use crate::asking::{page, since};
use crate::asks::Asks;
use crate::fault::ReadFault;
use crate::gathering::{go_past, scope_of};
use crate::known::laws;
use crate::reading::Reading;
use ds_entry::Items;
use ds_feed::Cursor;
use std::alloc::Global;

// Appends what took effect from the cursor on up to the store's cursor, while others use the store. It reads the
// journal until a reply has fewer items than it asked for.
fn catch_up<A: Asks>(
    alloc: Global,
    asked: &mut A,
    reading: &Reading,
    from: Cursor,
    items: &mut Items,
) -> Result<(), ReadFault>
    ensures caught { OnOk result (ComesTo A.stands asked.old asked.new (λ _ t. IsCaughtUp t reading.now.query from items.old items.new)) }
    ensures stopped { IfErr result (λ fault. ComesTo A.stands asked.old asked.new (λ _ t. StopsSinces t reading.now from fault)) }
    ensures only { AsksFew A.asks_once (IsSinceOf reading.now) reading.now.questions asked.old asked.new }
    ensures worn { result ≡ Err ReadFault.Worn → A.is_worn asked.new }
    ensures same { A.origin_of asked.new ≡ A.origin_of asked.old }
{
    laws();
    let mut at = from;
    for _question in 0..reading.questions {
        let scope = scope_of(alloc, &reading.query)?;
        let given = since(asked, scope, at, reading.max)?;
        items.append_copies(alloc, &given.items)?;
        at = given.cursor;
        if given.items.len() < reading.max as usize {
            return Ok(());
        }
    }
    Err(ReadFault::Unfinished)
}

/// Reads a store by pages, and then by the journal from the first page's cursor on, while others use the store.
///
/// Each item is under the query. Each item that took effect under the query, up to the store's cursor at the end, is
/// returned, or covered by one that is. No page is older than the call. The store gets Pages and Sinces of this query, and
/// nothing else.
///
/// Fails as `Refused` if the store refused a Page or a Since. Fails as `Unfinished` if the allowed number of Pages didn't
/// reach the last page, or as many Sinces were all full. Fails as `NoRoom` if memory ran out for the query's text in
/// the next command or for the items, and as `Worn` if no further command can be sent.
pub fn read_by_pages<A: Asks>(
    alloc: Global,
    asked: &mut A,
    reading: &Reading,
) -> Result<Items, ReadFault>
    ensures whole { IfOk result (λ items. ComesTo A.stands asked.old asked.new (λ _ t. IsReadWhole t reading.now.query items)) }
    ensures items { IfOk result (λ items. ComesTo A.stands asked.old asked.new (λ s t. AreRead s t reading.now items)) }
    ensures stopped { IfErr result (λ fault. ComesTo A.stands asked.old asked.new (λ s t. StopsPages s t reading.now fault)) }
    ensures only { AsksByPages A.asks_once reading.now asked.old asked.new }
    ensures worn { result ≡ Err ReadFault.Worn → A.is_worn asked.new }
    ensures same { A.origin_of asked.new ≡ A.origin_of asked.old }
{
    laws();
    let mut items = Items::new(alloc);
    let mut after = None;
    let mut from = None;
    for _question in 0..reading.questions {
        let scope = scope_of(alloc, &reading.query)?;
        let given = page(asked, scope, after, reading.max)?;
        items.append_copies(alloc, &given.items)?;
        let first = from.unwrap_or(given.cursor);
        if given.last {
            catch_up(alloc, asked, reading, first, &mut items)?;
            return Ok(items);
        }
        go_past(&mut after, &given.items);
        from = Some(first);
    }
    Err(ReadFault::Unfinished)
}
