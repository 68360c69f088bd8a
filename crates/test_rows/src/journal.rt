//! A journal of two, read with `since`. A store reads its own with `since_under`.

use crate::telling::tell;
use ds_feed::{Cursor, Journal, Since, SinceFault};
use ds_line::read_item;
use std::alloc::Global;
use std::io::Write;
use test_kit::{append_items, append_number};

// The incarnation of the journal.
const INCARNATION: u64 = 1;

// The lines of its items.
const LINES: [&[u8]; 3] = [
    b"a u32 eth0 1.0 = 0\n",
    b"b u32 eth0 1.1 = 1\n",
    b"c u32 eth0 1.2 = 2\n",
];

// Positions, and how many items are requested at most.
const ASKED: [(u64, u32); 5] = [(0, 8), (4, 8), (1, 8), (1, 1), (3, 8)];

/// Writes what follows each position. `None` if out of memory.
pub(crate) fn tell_rows(text: &mut Vec<u8>, alloc: Global) -> Option<()> {
    tell(text, &[b"a journal of two, after a, b and c\n"])?;
    let mut journal = Journal::new(alloc, INCARNATION, 0, 2).ok()?;
    tell_all(text, alloc, &mut journal)
}

fn tell_all(text: &mut Vec<u8>, alloc: Global, journal: &mut Journal) -> Option<()> {
    for line in LINES {
        push(alloc, journal, line)?;
    }
    for (position, max) in ASKED {
        append_number(text, b"since ", position, b", at most ").ok()?;
        append_number(text, b"", u64::from(max), b"\n").ok()?;
        let cursor = Cursor {
            incarnation: INCARNATION,
            position,
        };
        tell_since(text, &journal.since(alloc, cursor, max))?;
    }
    Some(())
}

fn push(alloc: Global, journal: &mut Journal, line: &[u8]) -> Option<()> {
    if journal.cursor().position >= 1 << 62 {
        return None;
    }
    let (item, _) = read_item(alloc, line).ok()?;
    journal.push(item);
    Some(())
}

// Writes the line of each item, and the position after them.
fn tell_since(text: &mut Vec<u8>, since: &Result<Since, SinceFault>) -> Option<()> {
    match since {
        Ok(since) => {
            append_items(text, &since.items).ok()?;
            append_number(text, b"up to ", since.cursor.position, b"\n").ok()
        }
        Err(fault) => write!(text, "{fault}\n").ok(),
    }
}
