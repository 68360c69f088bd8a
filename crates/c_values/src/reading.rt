//! Reading the command of a request.

ghost use Rattle.std.specs.Prelude.{◌≡◌, ◌≢◌, [], IfOk, OnErr, IsTrue};
ghost use Rattle.std.specs.Option.{option_map};
ghost use Rattle.ds_machine.specs.declared.command.Command.TheVariants.{Retrieve, NameOf, Check};
ghost use Rattle.c_values.specs.Request.{command_of, key_of, caller_of};
ghost use Rattle.c_values.specs.Asked.{has_text, ReadsRequest};

use crate::lines::read_items;
use crate::parts::{caller_of, delete, key_of, sweep};
use crate::request::Request;
use crate::texts::{page, publish, since, snapshot, subscribe};
use ds_machine::Command;
use ds_names::NoRoom;
use std::alloc::Global;

fn retrieve(request: &Request) -> Option<Command>
    ensures { result ≡ option_map Retrieve (key_of request.now) }
{
    let key = key_of(request)?;
    Some(Command::Retrieve { key })
}

fn name_of(request: &Request) -> Option<Command>
    ensures { result ≡ option_map NameOf (caller_of request.now) }
{
    let endpoint = caller_of(request)?;
    Some(Command::NameOf { endpoint })
}

// Returns the command of a request, except a Merge.
#[tactic(auto, unfolding(crate::specs::Request::command_of))]
fn command(alloc: Global, request: &Request, text: &[u8]) -> Result<Option<Command>, NoRoom>
    ensures read { IfOk result (λ command. command ≡ command_of request.now text.now) }
    ensures room { OnErr result (IsTrue (has_text request.now)) }
    ensures some { OnErr result (text.now ≢ []) }
    ensures fits { OnErr result (command_of request.now text.now ≢ None) }
{
    match request.command {
        0 => publish(alloc, request, text),
        1 => Ok(delete(request)),
        2 => Ok(sweep(request)),
        3 => Ok(retrieve(request)),
        4 => Ok(name_of(request)),
        5 => subscribe(alloc, request, text),
        6 => Ok(Some(Command::Check {
            sub: request.sub,
            max: request.max,
        })),
        7 => since(alloc, request, text),
        8 => snapshot(alloc, request, text),
        9 => page(alloc, request, text),
        _ => Ok(None),
    }
}

// Returns the Merge of the items in the text, one line each.
fn merge(alloc: Global, request: &Request, text: &[u8]) -> Result<Option<Command>, NoRoom>
    requires { request.now.command ≡ 10 }
    ensures { ReadsRequest request.now text.now result }
{
    match read_items(alloc, text) {
        Ok(Some(items)) => Ok(Some(Command::Merge { items })),
        Ok(None) => Ok(None),
        Err(NoRoom) => Err(NoRoom),
    }
}

/// Reads the command of a request with this text. Returns `None` if no command has such parts, and fails only if it is a command, or begins
/// as a Merge, and memory runs out for its text.
pub fn read_request(
    alloc: Global,
    request: &Request,
    text: &[u8],
) -> Result<Option<Command>, NoRoom>
    ensures { ReadsRequest request.now text.now result }
{
    if request.command == 10 {
        return merge(alloc, request, text);
    }
    command(alloc, request, text)
}
