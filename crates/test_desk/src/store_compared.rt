//! The threads' commands to a store.

use crate::commands::{Asked, driver_of, follow, merge};
use crate::compared::Compared;
use crate::kept::kept_of;
use crate::new_store::{FIRST, INCARNATION, store_at};
use ds_entry::Items;
use ds_feed::Cursor;
use ds_machine::{Command, Reply, Scope};
use ds_store::Store;
use std::alloc::Global;
use test_kit::Kept;

// The labels that threads publish.
const LABELS: [&[u8]; 4] = [b"disk", b"eth0", b"inet", b"tty"];

impl Compared for Box<Store> {
    fn begin(alloc: Global) -> Option<Box<Store>> {
        store_at(alloc, FIRST)
    }

    /// Returns each command at least once in a round of 16 turns. Most of them publish a label, of which another thread may have published
    /// a later generation.
    fn command_of(alloc: Global, seen: u64, turn: u32) -> Option<Command> {
        let round = turn / 16;
        let generation = 1 + (seen % 1_000_000) as u32;
        let driver = driver_of(LABELS[(round % 4) as usize], generation, (turn % 16) as u16)?;
        let max = 1 + round % 4;
        Some(match turn % 16 {
            0 => follow(alloc, round % 128)?,
            3 => Command::Page {
                scope: Scope::All,
                after: None,
                max,
            },
            5 | 15 => Command::Check {
                sub: round % 128,
                max,
            },
            6 => merge(alloc, &driver, turn)?,
            7 => Command::Since {
                scope: Scope::All,
                cursor: Cursor {
                    incarnation: INCARNATION,
                    position: FIRST.wrapping_add(seen / 4),
                },
                max,
            },
            9 => driver.ask(Asked::Retrieve),
            10 => driver.ask(Asked::Delete),
            12 => driver.ask(Asked::NameOf),
            13 => driver.ask(Asked::Sweep),
            14 => Command::Snapshot { scope: Scope::All },
            _ => driver.ask(Asked::Start),
        })
    }

    fn first_of(command: Command, items: usize) -> Option<Command> {
        match command {
            Command::Merge { items: all } => first_items(all, items).map(merge_of),
            other => Some(other),
        }
    }

    fn answer(&mut self, command: Command) -> Reply {
        self.apply(command)
    }

    fn kept_of(alloc: Global, reply: &Reply) -> Option<Kept> {
        kept_of(alloc, reply)
    }

    fn is_as_far_as(&self, other: &Box<Store>) -> bool {
        self.cursor().position == other.cursor().position
    }
}

fn merge_of(items: Items) -> Command {
    Command::Merge { items }
}

// Returns the first `count` items, or `None` if there are fewer, or if memory runs out.
fn first_items(mut all: Items, count: usize) -> Option<Items> {
    if count > all.len() {
        return None;
    }
    all.split_off(count).ok()?;
    Some(all)
}
