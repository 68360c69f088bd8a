//! Fast readers for the lines of a Retrieve and of a NameOf.
//!
//! `None` decides nothing: `read_bytes` reads any other line, and finds the fault of a bad one. docs/design/fast-ways.md says what these
//! save.

ghost use Rattle.std.specs.Prelude.{◌≡◌, ◌⊎◌, ◌++◌, ◌∷◌, [], IsTrue, Ok, IfSome, codes};
ghost use Rattle.ds_machine.specs.declared.command.Command.TheVariants.{Retrieve, NameOf};
ghost use Rattle.line_io.specs.Lines.{EndsLine};
ghost use Rattle.script_commands.specs.Command.{ReadsCommand};
ghost use Rattle.script_commands.specs.Fast.{IsRetrieve};
ghost use Rattle.script_commands.specs.declared.command.ScriptCommand.TheVariants.{Store};
ghost use Rattle.c_store.specs.Line.{IsCommandIn};
ghost use Rattle.c_store.specs.Fast.{IsEndpointAlone};

use c_values::endpoint;
use ds_names::{Endpoint, Key, read_endpoint};
use line_io::{LONGEST_LINE, newline_place};
use script_commands::is_retrieve;

/// Reads the key of a `retrieve` line that ends with its newline.
#[inline(always)]
pub fn fast_retrieve(bytes: &[u8]) -> Option<Key>
    ensures { IfSome result (λ key. IsCommandIn bytes.now (Store (Retrieve key))) }
{
    if !is_retrieve(bytes) {
        return None;
    }
    match newline_place(bytes) {
        None => None,
        Some(place) => {
            if place + 1 < bytes.len() {
                return None;
            }
            if place > LONGEST_LINE {
                return None;
            }
            read_key(bytes)
        }
    }
}

// Reads the key of a whole line.
#[inline(always)]
fn read_key(line: &[u8]) -> Option<Key>
    requires line { EndsLine line.now }
    requires retrieve { IsRetrieve line.now }
    ensures { IfSome result (λ key. ReadsCommand line.now (Ok (Store (Retrieve key)))) }
{
    match script_commands::fast_retrieve(line) {
        Ok(key) => Some(key),
        Err(_) => None,
    }
}

/// Reads the endpoint of a `nameof` line, whose newline may be missing.
#[inline(always)]
pub fn fast_name_of(bytes: &[u8]) -> Option<Endpoint>
    ensures { IfSome result (λ endpoint. IsCommandIn bytes.now (Store (NameOf endpoint))) }
{
    if bytes.len() > LONGEST_LINE {
        return None;
    }
    match after_name_of(bytes) {
        Some(after) => endpoint_alone(after),
        None => None,
    }
}

// Returns what follows the word `nameof` and a space. `None` for any other line.
#[inline(always)]
fn after_name_of(line: &[u8]) -> Option<&[u8]>
    ensures { IfSome result (λ rest. line.now ≡ codes "nameof " ++ rest.now) }
{
    match line {
        [b'n', b'a', b'm', b'e', b'o', b'f', b' ', rest @ ..] => Some(rest),
        _ => None,
    }
}

// Returns the endpoint that the bytes are, but for a newline.
#[inline(always)]
fn endpoint_alone(bytes: &[u8]) -> Option<Endpoint>
    ensures { IfSome result (λ endpoint. IsEndpointAlone endpoint bytes.now) }
{
    match read_endpoint(bytes) {
        Some((generation, slot, rest)) => {
            if is_end(rest) {
                return endpoint(generation, slot);
            }
            None
        }
        None => None,
    }
}

// Returns whether the line ends here, with or without its newline.
#[inline(always)]
fn is_end(rest: &[u8]) -> bool
    ensures { IsTrue result → (rest.now ≡ []) ⊎ (rest.now ≡ 10 ∷ []) }
{
    matches!(rest, [] | [b'\n'])
}
