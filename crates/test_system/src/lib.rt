//! Two sections of the program for tests, driven by lines: systems, and RS alone. They test what no script reaches:
//! that a system or RS begins with settings, or why not, and the outcome of each event.
//!
//! A section of systems has parts, separated by empty lines. The first line of a part is
//! `system NEXT INCARNATION FIRST RING INCARNATION FIRST RING`: the generation of the first start, and the seeds of
//! both stores. The next lines, up to `end`, are a settings text. Each other line is an event, as lines.rt describes.
//! All events of a part are passed to the system at once; the output is the outcome of each, as telling.rt writes it,
//! and then what both servers' maps hold. If no system begins, or there are too many events, the output says so. The
//! lines of a section of RS are sent to RS one by one, as rs_session.rt describes.
#![tactic(auto)]

mod again;
mod lines;
mod part;
mod rs_command;
mod rs_rows;
mod rs_session;
mod rs_telling;
mod telling;
mod words;

use part::answer_part;
use rs_session::Session;
use std::alloc::Global;
use std::io::{self, Write};
use std::rt::Runtime;
use test_kit::Failure;

/// Answers the parts of systems in order, and writes all answers at the end.
pub fn answer_systems(rt: &(impl Runtime + AllocGlobal), parts: &str) -> Result<(), Failure> {
    answer_parts(rt, rt.alloc(), &mut Vec::new(rt.alloc()), parts)
}

fn answer_parts(
    rt: &impl Runtime,
    alloc: Global,
    text: &mut Vec<u8>,
    parts: &str,
) -> Result<(), Failure> {
    for part in parts.split("\n\n") {
        answer_part(text, alloc, part)?;
    }
    Ok(io::writer(rt).write_all(text.as_slice())?)
}

/// Sends the lines to RS in order, up to the first that can't be read, and writes each answer.
pub fn answer_rs(rt: &(impl Runtime + AllocGlobal), lines: &str) -> Result<(), Failure> {
    let mut text = Vec::new(rt.alloc());
    let mut session = Session::new(rt.alloc());
    answer_lines(rt, &mut session, &mut text, lines)
}

fn answer_lines(
    rt: &impl Runtime,
    session: &mut Session,
    text: &mut Vec<u8>,
    lines: &str,
) -> Result<(), Failure> {
    for line in lines.lines() {
        text.clear();
        session.take(text, line)?;
        io::writer(rt).write_all(text.as_slice())?;
    }
    Ok(())
}
