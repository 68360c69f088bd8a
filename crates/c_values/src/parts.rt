//! The parts of a request that take no memory, and the commands that have only such parts.

ghost use Rattle.std.specs.Prelude.{◌≡◌};
ghost use Rattle.c_values.specs.Request.{generation_at, endpoint_at, caller_of, version_at, versioned, kind_at, name_at, named_in, key_of};
ghost use Rattle.c_values.specs.Request.{after_of, delete_of, sweep_of};

use crate::request::Request;
use ds_machine::Command;
use ds_names::{Endpoint, Generation, Key, Kind, Name, Version};

#[tactic(auto, unfolding(crate::specs::Request::generation_at))]
pub(crate) fn generation(number: u32) -> Option<Generation>
    ensures { result ≡ generation_at number }
{
    Generation::of(number)
}

/// Returns the endpoint of a generation and a slot, or `None` if one of them is out of its range.
#[tactic(auto, unfolding(crate::specs::Request::endpoint_at))]
pub fn endpoint(number: u32, slot: u16) -> Option<Endpoint>
    ensures { result ≡ endpoint_at number slot }
{
    Endpoint::of(Generation::of(number)?, slot)
}

/// Returns the endpoint of a request, which is its caller or the endpoint of a NameOf. `None` if it is out of range.
pub fn caller_of(request: &Request) -> Option<Endpoint>
    ensures { result ≡ caller_of request.now }
{
    endpoint(request.generation, request.slot)
}

#[tactic(auto, unfolding(crate::specs::Request::version_at))]
pub(crate) fn version(request: &Request) -> Option<Version>
    ensures { result ≡ versioned request.now }
{
    let epoch = Generation::of(request.epoch)?;
    Some(Version {
        epoch,
        seq: request.seq,
    })
}

/// Returns the kind with this number in C: 1 label, 2 u32, 4 str, 8 mem. `None` for any other number.
#[tactic(auto, unfolding(crate::specs::Request::kind_at))]
pub fn kind(bit: u8) -> Option<Kind>
    ensures { result ≡ kind_at bit }
{
    match bit {
        1 => Some(Kind::Label),
        2 => Some(Kind::U32),
        4 => Some(Kind::Str),
        8 => Some(Kind::Mem),
        _ => None,
    }
}

/// Returns the name in the first `length` bytes of a block. `None` if they aren't a name, or the block is shorter.
#[tactic(auto, unfolding(crate::specs::Request::name_at))]
pub fn name_in(block: &[u8; 64], length: u8) -> Option<Name>
    ensures { result ≡ name_at block.now length }
{
    let length = usize::from(length);
    if length > 64 {
        return None;
    }
    Name::read(&block[..length]).ok()
}

pub(crate) fn name(request: &Request) -> Option<Name>
    ensures { result ≡ named_in request.now }
{
    name_in(&request.name, request.name_length)
}

/// Returns the key of a request, or `None` if its name or its kind isn't one.
#[tactic(auto, unfolding(crate::specs::Request::key_of))]
pub fn key_of(request: &Request) -> Option<Key>
    ensures { result ≡ key_of request.now }
{
    let kind = kind(request.kinds)?;
    let name = name(request)?;
    Some(Key { name, kind })
}

/// Returns the key after which a Page begins, with an inner `None` for the first page. `None` if it isn't a key.
#[tactic(auto, unfolding(crate::specs::Request::after_of))]
pub(crate) fn after_key(request: &Request) -> Option<Option<Key>>
    ensures { result ≡ after_of request.now }
{
    if request.behind == 0 {
        return Some(None);
    }
    let name = name(request)?;
    let kind = kind(request.behind)?;
    Some(Some(Key { name, kind }))
}

#[tactic(auto, unfolding(crate::specs::Request::delete_of))]
pub(crate) fn delete(request: &Request) -> Option<Command>
    ensures { result ≡ delete_of request.now }
{
    let caller = caller_of(request)?;
    let key = key_of(request)?;
    let version = version(request)?;
    Some(Command::Delete {
        caller,
        key,
        version,
    })
}

#[tactic(auto, unfolding(crate::specs::Request::sweep_of))]
pub(crate) fn sweep(request: &Request) -> Option<Command>
    ensures { result ≡ sweep_of request.now }
{
    let caller = caller_of(request)?;
    let owner = name(request)?;
    let generation = generation(request.value)?;
    Some(Command::Sweep {
        caller,
        owner,
        generation,
    })
}
