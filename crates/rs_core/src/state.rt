//! What RS knows about a service.

ghost use Rattle.std.specs.Prelude.{◌≡◌, ◌<◌, ◌≤◌, ◌+◌, ◌^◌};
ghost use Rattle.ds_names.specs.Endpoint.{endpoint_of};
ghost use Rattle.rs_core.specs.Machine.{failed, failures_left, pause};
ghost use Rattle.rs_core.specs.Kept.{IsAtRest};

use ds_names::{Endpoint, Generation};

/// A running instance.
#[derive(Clone, Copy, PartialEq, Eq)]
pub struct Running {
    pub endpoint: Endpoint,
    /// The tick of its start.
    pub since: u64,
    /// The tick of its last heartbeat. Before the first one, the tick at which its time to start is over.
    pub beat: u64,
    /// The tick of its last ping, or of its start.
    pub ping: u64,
    /// How many times in a row the service failed before it.
    pub failures: u32,
}

/// A wait for the next start.
#[derive(Clone, Copy, PartialEq, Eq)]
pub struct Pause {
    /// The tick at which it is over.
    pub until: u64,
    /// How many times in a row the service failed.
    pub failures: u32,
}

/// What RS knows about a service: it is down (never started, or stopped), it runs, it failed and waits, or it failed
/// more often than its limit.
#[derive(Clone, Copy, PartialEq, Eq)]
pub enum State {
    Down,
    Up(Running),
    Waiting(Pause),
    GaveUp,
}

// Returns the failures in a row that still count when the instance ends at a tick.
pub(crate) fn failures_left(forget: u32, tick: u64, running: &Running) -> u32
    ensures value { result ≡ failures_left forget tick running.now }
    ensures few { result ≤ running.now.failures }
{
    if forget > 0 && u64::from(forget) <= tick.saturating_sub(running.since) {
        0
    } else {
        running.failures
    }
}

// Returns the ticks to wait after failure k in a row.
fn wait_after(k: u32) -> u64
    requires { 1 ≤ k }
    ensures value { result ≡ pause k }
    ensures limit { result ≤ 32 }
{
    match k {
        1 => 1,
        2 => 2,
        3 => 4,
        4 => 8,
        5 => 16,
        _ => 32,
    }
}

// Returns the state of a service after failure k in a row.
pub(crate) fn failed(limit: u32, tick: u64, k: u32) -> State
    requires some { 1 ≤ k }
    requires limit { limit ≤ 1000 }
    requires tick { tick ≤ 2 ^ 62 }
    ensures value { result ≡ failed limit tick k }
    ensures rest { IsAtRest result }
{
    if k > limit {
        State::GaveUp
    } else {
        State::Waiting(Pause {
            until: tick + wait_after(k),
            failures: k,
        })
    }
}

// Returns the endpoint of a generation and a slot.
pub(crate) fn endpoint_at(generation: u32, slot: u16) -> Endpoint
    requires generation { generation ≤ 2097151 }
    requires slot { slot ≤ 1023 }
    ensures { result ≡ endpoint_of generation slot }
{
    match Generation::of(generation) {
        Some(generation) => match Endpoint::of(generation, slot) {
            Some(endpoint) => endpoint,
            None => unreachable!(),
        },
        None => unreachable!(),
    }
}
