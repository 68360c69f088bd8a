//! Maps, by bytes and numbers.

ghost use Rattle.std.specs.Prelude.{◌≡◌, ◌≤◌, IfOk, IfErr, length};
ghost use Rattle.c_store.specs.Map.{IsMapOf, IsMapRefusal, TakesItems, GivesItems, told_label};

use c_values::{Answer, answer_of, no_room, read_items};
use ds_entry::{Items, Value};
use ds_machine::{Refusal, Reply};
use ds_names::{Kinds, Name, NoRoom};
use ds_pattern::{LONGEST_PATTERN, PatternFault, PatternText, Query};
use ds_submap::SubMap;
use std::alloc::Global;

/// Makes an empty map with a query of a pattern and kinds.
///
/// Refuses a number that isn't a sum of kinds as BadKind, then a pattern of more than 128 bytes as TooLong, then bytes that aren't a
/// pattern as BadPattern. NoRoom may come in place of BadPattern, or after it.
pub fn new_map(alloc: Global, kinds: u8, pattern: &[u8]) -> Result<SubMap, Refusal>
    ensures made { IfOk result (IsMapOf kinds pattern.now) }
    ensures refused { IfErr result (λ refusal. IsMapRefusal refusal kinds pattern.now) }
{
    let Some(kinds) = Kinds::of(kinds) else {
        return Err(Refusal::BadKind);
    };
    if pattern.len() > LONGEST_PATTERN {
        return Err(Refusal::TooLong);
    }
    let Ok(text) = PatternText::of(alloc, pattern) else {
        return Err(Refusal::NoRoom);
    };
    match SubMap::new(alloc, &Query { text, kinds }) {
        Ok(map) => Ok(map),
        Err(PatternFault::TooLong) => Err(Refusal::TooLong),
        Err(PatternFault::BadPattern) => Err(Refusal::BadPattern),
        Err(PatternFault::NoRoom) => Err(Refusal::NoRoom),
    }
}

// Merges items into a map, and returns the answer with their counts.
fn take_items(alloc: Global, map: &mut SubMap, items: &Items) -> Answer
    ensures { TakesItems map.old items.now result map.new }
{
    let reply = match map.take(alloc, items) {
        Ok(count) => Reply::Merged {
            done: count.done,
            taken: count.taken,
            stale: count.stale,
            owed: 0,
        },
        Err(stop) => Reply::MergeStopped {
            done: stop.done,
            fault: Refusal::of_join(stop.fault),
            owed: 0,
        },
    };
    answer_of(&reply)
}

/// Merges items into a map, and returns the answer as for a Merge. The text has the lines of the items, in order. If the text isn't
/// such lines, or memory runs out for the items, the answer says so, and the map is unchanged.
pub fn take_lines(alloc: Global, map: &mut SubMap, text: &[u8]) -> Answer
    ensures { GivesItems map.old text.now result map.new }
{
    match read_items(alloc, text) {
        Ok(Some(items)) => take_items(alloc, map, &items),
        Ok(None) => Answer::no_request(),
        Err(NoRoom) => no_room(),
    }
}

/// Returns the answer of a Retrieve of a label: its endpoint, or NotFound if the map has no live one. If the bytes aren't a name,
/// the answer says that there is no request.
pub fn label_in(map: &SubMap, name: &[u8]) -> Answer
    ensures { result ≡ told_label map.now.held name.now }
{
    let Ok(name) = Name::read(name) else {
        return Answer::no_request();
    };
    match map.label(&name) {
        Some(endpoint) => answer_of(&Reply::Found(Value::Label(endpoint))),
        None => answer_of(&Reply::Refused(Refusal::NotFound)),
    }
}
