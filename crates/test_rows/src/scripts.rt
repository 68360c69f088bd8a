//! A script with its answers, run with each read and each write failing once.

use crate::telling::tell;
use ds_script::{ReplayFault, replay};
use line_io::{FailRead, FailWrite};
use std::alloc::Global;

const SCRIPT: &[u8] = b"offer eth0 label rs 3.0 = 3/17\noffer eth0 label rs 2.0 = 2/9\nshow";

const ANSWERS: &[u8] = b"taken\nstale\neth0 label rs 3.0 = 3/17\nshown 1\n";

const LINES: u64 = 3;

// More than the reads or writes of the script.
const MOST: u32 = 100;

/// Runs the script with its first read failing, its second, and so on, until none fails, with reads of seven bytes; then
/// in the same way with failing writes, each of at most five bytes. Then writes a line for both. `None`: an answer isn't
/// a front of the right one, a failure isn't reported as one, or no run ends.
pub(crate) fn tell_rows(text: &mut Vec<u8>, alloc: Global) -> Option<()> {
    fail_in_turn(alloc, true)?;
    fail_in_turn(alloc, false)?;
    tell(
        text,
        &[
            b"each read failed in turn\n",
            b"each write failed in turn\n",
        ],
    )
}

fn fail_in_turn(alloc: Global, are_reads: bool) -> Option<()> {
    for at in 1..MOST {
        let is_whole = match are_reads {
            true => is_whole(alloc, at, 0, ReplayFault::ReadFault),
            false => is_whole(alloc, 0, at, ReplayFault::WriteFault),
        };
        if is_whole? {
            return Some(());
        }
    }
    None
}

// Runs the script with that read and that write failing, 0 for none. Returns whether none failed.
fn is_whole(alloc: Global, read: u32, write: u32, fault: ReplayFault) -> Option<bool> {
    let mut reader = FailRead::new(SCRIPT, read, 7);
    let mut writer = FailWrite::new(alloc, write, 5);
    let end = replay(alloc, &mut reader, &mut writer);
    if end == Ok(LINES) {
        return (writer.written() == ANSWERS).then_some(true);
    }
    (end == Err(fault) && ANSWERS.starts_with(writer.written())).then_some(false)
}
