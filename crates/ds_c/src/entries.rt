//! The calls that read the entries of a subscriber's map.

ghost use Rattle.std.specs.Prelude.{◌≡◌, ℕ, List};
ghost use Rattle.std.specs.Option.{option_copied, option_map};
ghost use Rattle.ds_entry.specs.declared.body.Value.TheVariants.{Mem, Str};
ghost use Rattle.ds_machine.specs.declared.reply.Reply.TheVariants.{Found};
ghost use Rattle.c_values.specs.Answer.{answer_of};
ghost use Rattle.ds_c.specs.Entries.{FindsEntry, FindsValue, StepsFrom, StepsInMap, key_before, key_struct, key_with, next_key_of};
ghost use Rattle.ds_c.specs.Entries.{number_of_kind, reply_of_value, value_bytes};

use crate::map_handle::MapHandle;
use crate::services::write_part;
use crate::words::{BAD_KIND, DONE, IS_CLOSED};
use c_store::give_part;
use c_values::{Answer, Given, Word, answer_of, kind, name_in};
use ds_entry::{Body, Value};
use ds_held::Held;
use ds_machine::{Refusal, Reply};
use ds_names::{Key, Kind, Name};
use ds_submap::SubMap;
use std::alloc::Global;

/// The key of an entry, as C has it.
#[repr(C)]
#[derive(Clone, Copy)]
pub struct MapKey {
    /// 1 label, 2 u32, 4 str, 8 mem; 0 before the first entry.
    pub kind: u8,
    /// How many bytes the name has.
    pub name_length: u8,
    pub name: [u8; 64],
}

/// Finds the value of the entry under the key of a kind and a name. Copies the bytes of a text or a blob, as many as fit.
#[unsafe(no_mangle)]
pub extern "C" fn ds_map_value(
    alloc: Global,
    handle: &mut MapHandle,
    kind: u8,
    name: &[u8],
    answer: &mut Answer,
    room: &mut [u8],
    given: &mut Given,
) -> u32
    ensures found { FindsValue handle.old.value kind name.now answer.old room.old given.old result answer.new room.new given.new }
    ensures handle { handle.new.value ≡ handle.old.value }
{
    match handle.take(alloc) {
        None => IS_CLOSED,
        Some(map) => {
            *answer = find_value(&map, kind, name, room, given);
            handle.put(alloc, map);
            DONE
        }
    }
}

/// Writes the key of the first entry past a key, in the order of keys.
#[unsafe(no_mangle)]
pub extern "C" fn ds_map_next(alloc: Global, handle: &mut MapHandle, key: &mut MapKey) -> u32
    ensures steps { StepsInMap handle.old.value key.old result key.new }
    ensures handle { handle.new.value ≡ handle.old.value }
{
    match handle.take(alloc) {
        None => IS_CLOSED,
        Some(map) => {
            let word = step(&map, key);
            handle.put(alloc, map);
            word
        }
    }
}

// Finds the value of the entry under a key, and copies its bytes.
fn find_value(map: &SubMap, kind: u8, name: &[u8], room: &mut [u8], given: &mut Given) -> Answer
    ensures { FindsEntry map.now.held (key_with kind name.now) room.old result room.new given.new }
{
    let Some(key) = key_with(kind, name) else {
        *given = give_part(&[], 0, room);
        return Answer::no_request();
    };
    let value = map.held().live(&key);
    *given = give_part(value_bytes(value), 0, room);
    answer_of_value(value)
}

// Returns the key of a kind and a name.
#[tactic(auto, unfolding(crate::specs::Entries::key_with))]
fn key_with(bit: u8, name: &[u8]) -> Option<Key>
    ensures { result ≡ key_with bit name.now }
{
    let Ok(name) = Name::read(name) else {
        return None;
    };
    let kind = kind(bit)?;
    Some(Key { name, kind })
}

// Returns the bytes of a text or a blob.
fn value_bytes(value: Option<&Value>) -> &[u8]
    ensures { result.now ≡ value_bytes (option_copied value.entry) }
{
    match value {
        Some(Value::Str(text)) => text.bytes(),
        Some(Value::Mem(blob)) => blob.bytes(),
        _ => &[],
    }
}

// Returns the answer of a Retrieve with a value.
fn answer_of_value(value: Option<&Value>) -> Answer
    ensures { result ≡ answer_of (reply_of_value (option_copied value.entry)) }
{
    match value {
        Some(Value::Label(endpoint)) => answer_of(&Reply::Found(Value::Label(*endpoint))),
        Some(Value::U32(number)) => answer_of(&Reply::Found(Value::U32(*number))),
        Some(Value::Str(_)) => found_text(),
        Some(Value::Mem(_)) => found_blob(),
        None => answer_of(&Reply::Refused(Refusal::NotFound)),
    }
}

// Returns the answer of a Retrieve with a text, whichever it is.
#[tactic(auto, unfolding(c_values::specs::Answer::answer_of))]
fn found_text() -> Answer
    ensures { (text : List ℕ) → result ≡ answer_of (Found (Str text)) }
{
    Answer {
        kind: 4,
        pieces: 1,
        ..Answer::of(Word::Found)
    }
}

// Returns the answer of a Retrieve with a blob, whichever it is.
#[tactic(auto, unfolding(c_values::specs::Answer::answer_of))]
fn found_blob() -> Answer
    ensures { (bytes : List ℕ) → result ≡ answer_of (Found (Mem bytes)) }
{
    Answer {
        kind: 8,
        pieces: 1,
        ..Answer::of(Word::Found)
    }
}

// Writes the key of the first entry past a key. Returns 0, NotFound past the last entry, or BadKind if the struct has no key.
fn step(map: &SubMap, key: &mut MapKey) -> u32
    ensures { StepsFrom map.now.held (key_before key.old) key.old result key.new }
{
    match key_before(key) {
        Some(after) => write_part(next_struct(map, after), key),
        None => BAD_KIND,
    }
}

// Returns the key after which a walk continues, with an inner `None` before the first entry.
fn key_before(it: &MapKey) -> Option<Option<Key>>
    ensures { result ≡ key_before it.now }
{
    if it.kind == 0 {
        return Some(None);
    }
    let name = name_in(&it.name, it.name_length)?;
    let kind = kind(it.kind)?;
    Some(Some(Key { name, kind }))
}

// Returns the struct of the key of the first entry past a key.
fn next_struct(map: &SubMap, after: Option<Key>) -> Option<MapKey>
    ensures { result ≡ option_map key_struct (next_key_of map.now.held after) }
{
    let key = next_key(map.held(), after)?;
    Some(key_struct(&key))
}

// Returns the key of the first entry past a key.
fn next_key(held: &Held, after: Option<Key>) -> Option<Key>
    ensures { result ≡ next_key_of held.now after }
{
    let begin = held.begin_after(after.as_ref());
    for index in begin..held.len() {
        let Some(change) = held.at(index) else {
            unreachable!()
        };
        if let Body::Put(_) = change.body() {
            return Some(*change.key());
        }
    }
    None
}

// Returns the struct of a key.
fn key_struct(key: &Key) -> MapKey
    ensures { result ≡ key_struct key.now }
{
    let bytes = key.name.bytes();
    let mut name = [0; 64];
    name[..bytes.len()].copy_from_slice(bytes);
    MapKey {
        kind: number_of_kind(key.kind),
        name_length: bytes.len() as u8,
        name,
    }
}

// Returns the number of a kind.
fn number_of_kind(kind: Kind) -> u8
    ensures { result ≡ number_of_kind kind }
{
    match kind {
        Kind::Label => 1,
        Kind::U32 => 2,
        Kind::Str => 4,
        Kind::Mem => 8,
    }
}
