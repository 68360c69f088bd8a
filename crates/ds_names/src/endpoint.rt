//! Generations and endpoints.

ghost use Rattle.std.specs.Prelude.{◌≡◌, ℕ, ◌<◌, ◌≤◌, List, ◌≢◌, OnErr, IfSome, IfNone, IfOk, string_bytes};
ghost use Rattle.std.specs.Option.{SomeIff};
ghost use Rattle.std.specs.Char.{is_ascii_digit};
ghost use Rattle.ds_names.specs.Endpoint.{EndpointRecord, IsEndpoint, NoEndpointBegins, endpoint_text, endpoint_of, is_rs};
ghost use Rattle.ds_names.specs.Run.{Begins};

use crate::decimal::{read_byte, read_decimal};
use crate::limits::LAST_GENERATION;
use crate::room::NoRoom;
use std::alloc::Global;
use std::marker::Model;
use thiserror::Error;

/// The number of a process among all that RS started, 0 to 2097151.
///
/// MINIX 3 puts a generation into each endpoint, so that nobody mistakes the endpoint of a dead process for its
/// successor's. The range is this project's.
#[derive(Clone, Copy, Debug, PartialEq, Eq, PartialOrd, Ord)]
pub struct Generation {
    number: u32,
}

impl Model for Generation {
    ghost use Rattle.std.specs.Prelude.{ℕ, ◌≤◌};

    ghost Value = { ℕ };

    ghost view = { λ g. g.number };

    ghost invariant = { λ g. g.number ≤ 2097151 };

    ghost inverse = { λ n. record { number = n } };
}

impl Generation {
    /// Returns the generation with this number, or `None` if it is above 2097151.
    pub fn of(number: u32) -> Option<Generation>
        ensures { SomeIff result (number ≤ 2097151) number }
    {
        if number <= LAST_GENERATION {
            Some(Generation { number })
        } else {
            None
        }
    }

    /// Returns the generation's number, 0 to 2097151.
    pub fn number(self) -> u32
        ensures value { result ≡ self }
        ensures limit { result ≤ 2097151 }
    {
        self.number
    }
}

/// The error for bytes that aren't an endpoint's text, `generation/slot`.
#[derive(Clone, Copy, Debug, PartialEq, Eq, Error)]
#[error("an endpoint is written as generation/slot")]
pub struct BadEndpoint;

/// A process's address: a generation and a slot, as in MINIX 3.
#[derive(Clone, Copy, Debug, PartialEq, Eq)]
pub struct Endpoint {
    generation: Generation,
    slot: u16,
}

impl Model for Endpoint {
    ghost use Rattle.std.specs.Prelude.{ℕ, ◌≤◌};
    ghost use Rattle.ds_names.specs.Endpoint.{EndpointRecord, IsEndpoint, endpoint_of};

    ghost Value = { EndpointRecord };

    ghost view = { λ e. endpoint_of e.generation e.slot };

    ghost invariant = { λ e. IsEndpoint (endpoint_of e.generation e.slot) };

    ghost inverse = { λ a. record { generation = a.generation; slot = a.slot } };
}

impl Endpoint {
    /// Returns the endpoint of a generation and a slot, or `None` if the slot is above 1023.
    pub fn of(generation: Generation, slot: u16) -> Option<Endpoint>
        ensures { SomeIff result (slot ≤ 1023) (endpoint_of generation slot) }
    {
        let _number = generation.number();
        if slot <= 1023 {
            Some(Endpoint { generation, slot })
        } else {
            None
        }
    }

    /// Returns the endpoint of RS, the reincarnation server: `0/2`.
    pub fn rs() -> Endpoint
        ensures { result ≡ endpoint_of 0 2 }
    {
        Endpoint {
            generation: Generation { number: 0 },
            slot: 2,
        }
    }

    /// Returns whether the endpoint is RS's.
    pub fn is_rs(self) -> bool
        ensures { result ≡ is_rs self }
    {
        self == Endpoint::rs()
    }

    /// Returns the endpoint's generation.
    pub fn generation(self) -> Generation
        ensures value { result ≡ self.generation }
        ensures valid { IsEndpoint self }
    {
        self.generation
    }

    /// Returns the endpoint's slot, 0 to 1023.
    pub fn slot(self) -> u16
        ensures value { result ≡ self.slot }
        ensures valid { IsEndpoint self }
    {
        self.slot
    }

    /// Reads an endpoint from its text, `generation/slot`. Refuses any other bytes as BadEndpoint.
    pub fn read(bytes: &[u8]) -> Result<Endpoint, BadEndpoint>
        ensures found { IfOk result (λ e. IsEndpoint e × (bytes.now ≡ endpoint_text e)) }
        ensures none { OnErr result ((e : EndpointRecord) → IsEndpoint e → bytes.now ≢ endpoint_text e) }
    {
        let Some((generation, slot, rest)) = read_endpoint(bytes) else {
            return Err(BadEndpoint);
        };
        if !rest.is_empty() {
            return Err(BadEndpoint);
        }
        let generation = Generation { number: generation };
        Ok(Endpoint { generation, slot })
    }

    /// Prints `generation/slot`, in decimals without leading zeros. `Endpoint::read` reads the text back.
    pub fn print(self, alloc: Global) -> Result<String, NoRoom>
        ensures { IfOk result (λ text. string_bytes text ≡ endpoint_text self) }
    {
        let generation = self.generation.number;
        let slot = self.slot;
        Ok(format!(in alloc; "{generation}/{slot}")?)
    }
}

/// Reads the endpoint at the front, and returns its generation, its slot and the bytes after it.
///
/// The slot is the longest run of digits. Returns `None` if the bytes don't begin with an endpoint.
pub fn read_endpoint(bytes: &[u8]) -> Option<(u32, u16, &[u8])>
    ensures found { IfSome result (λ r. Begins is_ascii_digit bytes.now (endpoint_text (endpoint_of r.0 r.1)) r.2.now) }
    ensures valid { IfSome result (λ r. IsEndpoint (endpoint_of r.0 r.1)) }
    ensures none { IfNone result (NoEndpointBegins bytes.now) }
{
    let (generation, rest) = read_decimal(bytes, LAST_GENERATION as u64)?;
    let rest = read_byte(rest, b'/')?;
    let (slot, rest) = read_decimal(rest, 1023)?;
    Some((generation as u32, slot as u16, rest))
}

/// A law: no two endpoints have the same text.
pub fn endpoints_have_one_text()
    ensures { (a b : EndpointRecord) → IsEndpoint a → IsEndpoint b → endpoint_text a ≡ endpoint_text b → a ≡ b }
{}
