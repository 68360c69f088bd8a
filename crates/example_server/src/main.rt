//! How a server uses the data store: `inet` follows a network driver that dies and is restarted.
//!
//! RS publishes the label of `eth0`, and the driver its MTU. When the driver dies, RS sweeps what it left, and
//! publishes the label of its next generation. `inet`, server 5, checks when a notice is owed to it. The program around
//! the store sends that notice, and calls `apply` with the endpoints that the kernel reports. What the dead process
//! still sends is refused.
#![tactic(auto)]

mod drivers;
mod telling;

use drivers::{Driver, eth0_and_below};
use ds_machine::Command;
use ds_store::Store;
use std::alloc::Global;
use std::process::ExitCode;
use std::rt::Runtime;
use telling::tell;

/// The first of the eight subscriptions of server 5.
pub(crate) const INET: u32 = 40;

fn main(rt: HostRuntime) -> ExitCode {
    match example(&rt) {
        Some(()) => ExitCode::SUCCESS,
        None => ExitCode::FAILURE,
    }
}

// Returns None if memory or writing fails.
fn example(rt: &(impl Runtime + AllocGlobal)) -> Option<()> {
    let mut store = Store::open(rt.alloc(), 1, 0, 256).ok()?;
    follow_eth0(rt, rt.alloc(), &mut store)
}

// `inet` follows `eth0`, which dies and is restarted.
fn follow_eth0(rt: &impl Print, alloc: Global, store: &mut Store) -> Option<()> {
    let follow = Command::Subscribe {
        sub: INET,
        query: eth0_and_below(alloc)?,
        initial: true,
        overwrite: false,
    };
    ask(rt, store, follow)?;

    let first = Driver::eth0(3, 16)?;
    ask(rt, store, first.started())?;
    ask(rt, store, first.publishes_mtu(1500)?)?;
    ask(rt, store, check())?;

    let second = Driver::eth0(4, 16)?;
    ask(rt, store, first.died())?;
    ask(rt, store, second.started())?;
    ask(rt, store, first.publishes_mtu(9000)?)?;
    ask(rt, store, check())
}

// Applies a command to the store, and prints the reply.
fn ask(rt: &impl Print, store: &mut Store, command: Command) -> Option<()> {
    tell(rt, &store.apply(command))
}

// Returns the command that `inet` sends on a notice.
fn check() -> Command {
    Command::Check {
        sub: INET,
        max: 256,
    }
}
