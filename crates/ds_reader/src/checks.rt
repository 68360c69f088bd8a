//! Reading a store by checks.

ghost use Rattle.std.specs.Prelude.{◌≡◌, Err, IfOk, IfErr};
ghost use Rattle.ds_reader.specs.Asked.{ComesTo};
ghost use Rattle.ds_reader.specs.GivesUp.{IsOvertakenAtLast, StopsChecks};
ghost use Rattle.ds_reader.specs.Questions.{AsksByChecks};
ghost use Rattle.ds_reader.specs.ReadWhole.{AreChecked, IsReadWhole};

use crate::asking::{check, subscribe};
use crate::asks::Asks;
use crate::fault::ReadFault;
use crate::known::laws;
use crate::reading::Reading;
use ds_entry::Items;
use std::alloc::Global;

/// Reads a store by a subscription while others use the store.
///
/// Subscribes with INITIAL, in place of any subscription of this number, and checks until a Check returns fewer items than
/// it may. Each item is under the query. Each item that took effect under the query, up to the store's cursor at the end,
/// is returned, or covered by one that is. The store gets the Subscribe and the Checks, and nothing else.
///
/// Fails as `Refused` if the store refused the Subscribe or a Check, and as `Unfinished` if the allowed number of Checks
/// wasn't enough. Fails as `Overtaken` if a Check returned another stamp than the reader's last one. Fails as `NoRoom` if
/// memory ran out for the query's text, before the first command, or for the items, and as `Worn` if no further command
/// can be sent. The commands sent until then keep their effect.
pub fn read_by_checks<A: Asks>(
    alloc: Global,
    asked: &mut A,
    sub: u32,
    reading: &Reading,
) -> Result<Items, ReadFault>
    ensures whole { IfOk result (λ items. ComesTo A.stands asked.old asked.new (λ _ t. IsReadWhole t reading.now.query items)) }
    ensures items { IfOk result (λ items. ComesTo A.stands asked.old asked.new (λ s t. AreChecked s t reading.now.query items)) }
    ensures stopped { IfErr result (λ fault. ComesTo A.stands asked.old asked.new (λ s t. StopsChecks s t sub reading.now fault)) }
    ensures overtaken { result ≡ Err ReadFault.Overtaken → IsOvertakenAtLast A.asks_once A.stands sub reading.now asked.old asked.new }
    ensures only { AsksByChecks A.asks_once sub reading.now asked.old asked.new }
    ensures worn { result ≡ Err ReadFault.Worn → A.is_worn asked.new }
    ensures same { A.origin_of asked.new ≡ A.origin_of asked.old }
{
    laws();
    let query = reading.query.copy(alloc)?;
    let mut stamp = subscribe(asked, sub, query)?;
    let mut items = Items::new(alloc);
    for _question in 0..reading.questions {
        let shown = check(asked, sub, reading.max)?;
        if shown.before != stamp {
            return Err(ReadFault::Overtaken);
        }
        stamp = shown.after;
        items.append_copies(alloc, &shown.items)?;
        if shown.items.len() < reading.max as usize {
            return Ok(items);
        }
    }
    Err(ReadFault::Unfinished)
}
