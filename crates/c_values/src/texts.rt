//! The parts of a request that take memory, and the commands that have them.

ghost use Rattle.std.specs.Prelude.{◌≡◌, ◌≢◌, ◌==◌, [], not, MatchOption, IfOk, OnErr, IsTrue};
ghost use Rattle.std.specs.Option.{option_map};
ghost use Rattle.std.specs.declared.option.Option.TheVariants.{Some};
ghost use Rattle.ds_machine.specs.declared.command.Command.TheVariants.{Snapshot};
ghost use Rattle.c_values.specs.Asked.{is_long, request_text};
ghost use Rattle.c_values.specs.Request.{string_at, memory_at, kind_at, valued, query_at, scope_of};
ghost use Rattle.c_values.specs.Request.{publish_of, publish_command, subscribe_of, since_of_request, page_of_request};

use crate::parts::{after_key, caller_of, endpoint, key_of, version};
use crate::request::Request;
use ds_entry::{Blob, BlobFault, Text, TextFault, Value};
use ds_feed::Cursor;
use ds_machine::{Command, Scope};
use ds_names::{Endpoint, Key, Kind, Kinds, NoRoom, Version};
use ds_pattern::{PatternText, Query};
use std::alloc::Global;

/// Returns the text of a request, or `None` if it isn't within the texts.
#[tactic(auto, unfolding(crate::specs::Asked::text_in))]
pub fn text_of<'a>(texts: &'a [u8], request: &Request) -> Option<&'a [u8]>
    ensures { let text = request_text request.now texts.now in MatchOption result (text ≡ None) (λ t. text ≡ Some t.now) }
{
    let after = texts.get(request.text_at as usize..)?;
    after.get(..request.text_length as usize)
}

#[inline(never)]
#[tactic(auto, unfolding(crate::specs::Request::string_at))]
fn string(alloc: Global, text: &[u8]) -> Result<Option<Value>, NoRoom>
    ensures read { IfOk result (λ value. value ≡ string_at text.now) }
    ensures some { OnErr result (text.now ≢ []) }
    ensures fits { OnErr result (string_at text.now ≢ None) }
{
    match Text::read(alloc, text) {
        Ok(text) => Ok(Some(Value::Str(text))),
        Err(TextFault::NoRoom) => Err(NoRoom),
        Err(_) => Ok(None),
    }
}

#[inline(never)]
#[tactic(auto, unfolding(crate::specs::Request::memory_at))]
fn memory(alloc: Global, bytes: &[u8]) -> Result<Option<Value>, NoRoom>
    ensures read { IfOk result (λ value. value ≡ memory_at bytes.now) }
    ensures some { OnErr result (bytes.now ≢ []) }
    ensures fits { OnErr result (memory_at bytes.now ≢ None) }
{
    match Blob::read(alloc, bytes) {
        Ok(blob) => Ok(Some(Value::Mem(blob))),
        Err(BlobFault::NoRoom) => Err(NoRoom),
        Err(_) => Ok(None),
    }
}

#[inline(always)]
fn value(alloc: Global, request: &Request, text: &[u8], kind: Kind) -> Result<Option<Value>, NoRoom>
    ensures read { IfOk result (λ value. value ≡ valued request.now text.now kind) }
    ensures room { OnErr result (IsTrue (is_long (Some kind))) }
    ensures some { OnErr result (text.now ≢ []) }
    ensures fits { OnErr result (valued request.now text.now kind ≢ None) }
{
    match kind {
        Kind::Label => Ok(label(request)),
        Kind::U32 => Ok(Some(Value::U32(request.value))),
        Kind::Str => string(alloc, text),
        Kind::Mem => memory(alloc, text),
    }
}

fn label(request: &Request) -> Option<Value>
    ensures { result ≡ valued request.now [] Kind.Label }
{
    let endpoint = endpoint(request.value, request.value_slot)?;
    Some(Value::Label(endpoint))
}

/// The parts of a Publish.
#[derive(Drop)]
pub struct Publication {
    pub caller: Endpoint,
    pub key: Key,
    pub version: Version,
    pub value: Value,
    pub overwrite: bool,
}

impl Publication {
    /// Returns the Publish with these parts.
    #[inline(always)]
    pub fn command(self) -> Command
        ensures { result ≡ publish_command self }
    {
        let Publication {
            caller,
            key,
            version,
            value,
            overwrite,
        } = self;
        Command::Publish {
            caller,
            key,
            version,
            value,
            overwrite,
        }
    }
}

/// Reads the parts of a Publish from a request with this text. Returns `None` if they aren't those of a Publish, and fails only if memory
/// runs out for a text or a blob.
#[inline(always)]
#[tactic(auto, using(crate::proofs::AskedLemmas::long_by_key), unfolding(crate::specs::Request::publish_of))]
pub fn read_publication(
    alloc: Global,
    request: &Request,
    text: &[u8],
) -> Result<Option<Publication>, NoRoom>
    ensures read { IfOk result (λ asked. option_map publish_command asked ≡ publish_of request.now text.now) }
    ensures room { OnErr result (IsTrue (is_long (kind_at request.now.kinds))) }
    ensures some { OnErr result (text.now ≢ []) }
    ensures fits { OnErr result (publish_of request.now text.now ≢ None) }
{
    let Some(key) = key_of(request) else {
        return Ok(None);
    };
    let Some(caller) = caller_of(request) else {
        return Ok(None);
    };
    let Some(version) = version(request) else {
        return Ok(None);
    };
    let Some(value) = value(alloc, request, text, key.kind)? else {
        return Ok(None);
    };
    Ok(Some(Publication {
        caller,
        key,
        version,
        value,
        overwrite: request.overwrite != 0,
    }))
}

pub(crate) fn publish(
    alloc: Global,
    request: &Request,
    text: &[u8],
) -> Result<Option<Command>, NoRoom>
    ensures read { IfOk result (λ command. command ≡ publish_of request.now text.now) }
    ensures room { OnErr result (IsTrue (is_long (kind_at request.now.kinds))) }
    ensures some { OnErr result (text.now ≢ []) }
    ensures fits { OnErr result (publish_of request.now text.now ≢ None) }
{
    match read_publication(alloc, request, text)? {
        Some(asked) => Ok(Some(asked.command())),
        None => Ok(None),
    }
}

#[tactic(auto, unfolding(crate::specs::Request::query_at))]
fn query(alloc: Global, bits: u8, text: &[u8]) -> Result<Option<Query>, NoRoom>
    ensures read { IfOk result (λ query. query ≡ query_at bits text.now) }
    ensures some { OnErr result (text.now ≢ []) }
    ensures fits { OnErr result (query_at bits text.now ≢ None) }
{
    let Some(kinds) = Kinds::of(bits) else {
        return Ok(None);
    };
    let text = PatternText::of(alloc, text)?;
    Ok(Some(Query { text, kinds }))
}

#[tactic(auto, unfolding(crate::specs::Request::scope_of))]
fn scope(alloc: Global, request: &Request, text: &[u8]) -> Result<Option<Scope>, NoRoom>
    ensures read { IfOk result (λ scope. scope ≡ scope_of request.now text.now) }
    ensures room { OnErr result (IsTrue (not (request.now.under == 0))) }
    ensures some { OnErr result (text.now ≢ []) }
    ensures fits { OnErr result (scope_of request.now text.now ≢ None) }
{
    if request.under == 0 {
        return Ok(Some(Scope::All));
    }
    match query(alloc, request.kinds, text)? {
        Some(query) => Ok(Some(Scope::Under(query))),
        None => Ok(None),
    }
}

#[tactic(auto, unfolding(crate::specs::Request::subscribe_of))]
pub(crate) fn subscribe(
    alloc: Global,
    request: &Request,
    text: &[u8],
) -> Result<Option<Command>, NoRoom>
    ensures read { IfOk result (λ command. command ≡ subscribe_of request.now text.now) }
    ensures some { OnErr result (text.now ≢ []) }
    ensures fits { OnErr result (subscribe_of request.now text.now ≢ None) }
{
    let Some(query) = query(alloc, request.kinds, text)? else {
        return Ok(None);
    };
    Ok(Some(Command::Subscribe {
        sub: request.sub,
        query,
        initial: request.initial != 0,
        overwrite: request.overwrite != 0,
    }))
}

#[tactic(auto, unfolding(crate::specs::Request::since_of_request))]
pub(crate) fn since(
    alloc: Global,
    request: &Request,
    text: &[u8],
) -> Result<Option<Command>, NoRoom>
    ensures read { IfOk result (λ command. command ≡ since_of_request request.now text.now) }
    ensures room { OnErr result (IsTrue (not (request.now.under == 0))) }
    ensures some { OnErr result (text.now ≢ []) }
    ensures fits { OnErr result (since_of_request request.now text.now ≢ None) }
{
    let Some(scope) = scope(alloc, request, text)? else {
        return Ok(None);
    };
    Ok(Some(Command::Since {
        scope,
        cursor: Cursor {
            incarnation: request.incarnation,
            position: request.position,
        },
        max: request.max,
    }))
}

pub(crate) fn snapshot(
    alloc: Global,
    request: &Request,
    text: &[u8],
) -> Result<Option<Command>, NoRoom>
    ensures read { IfOk result (λ command. command ≡ option_map Snapshot (scope_of request.now text.now)) }
    ensures room { OnErr result (IsTrue (not (request.now.under == 0))) }
    ensures some { OnErr result (text.now ≢ []) }
    ensures fits { OnErr result (option_map Snapshot (scope_of request.now text.now) ≢ None) }
{
    let Some(scope) = scope(alloc, request, text)? else {
        return Ok(None);
    };
    Ok(Some(Command::Snapshot { scope }))
}

#[tactic(auto, unfolding(crate::specs::Request::page_of_request))]
pub(crate) fn page(alloc: Global, request: &Request, text: &[u8]) -> Result<Option<Command>, NoRoom>
    ensures read { IfOk result (λ command. command ≡ page_of_request request.now text.now) }
    ensures room { OnErr result (IsTrue (not (request.now.under == 0))) }
    ensures some { OnErr result (text.now ≢ []) }
    ensures fits { OnErr result (page_of_request request.now text.now ≢ None) }
{
    let Some(after) = after_key(request) else {
        return Ok(None);
    };
    let Some(scope) = scope(alloc, request, text)? else {
        return Ok(None);
    };
    Ok(Some(Command::Page {
        scope,
        after,
        max: request.max,
    }))
}
