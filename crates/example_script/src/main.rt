//! A caller of `ds_script`: answers the script on standard input, as `dsctl replay` does.
//!
//! It has no command line, prompt or threads, so it compiles in about half the time of `dsctl`. Status 0: done. 1: a
//! bad line. 3: memory, reading or writing failed, and standard error says which.
#![tactic(auto)]

use ds_script::{ReplayFault, replay};
use line_io::Plain;
use std::io;
use std::process::ExitCode;
use std::rt::Runtime;

fn main(rt: HostRuntime) -> ExitCode {
    match answer_input(&rt) {
        Ok(_) => ExitCode::SUCCESS,
        Err(fault) => tell(&rt, fault),
    }
}

// Answers the script on standard input, and returns the number of its lines.
fn answer_input(rt: &(impl Runtime + AllocGlobal)) -> Result<u64, ReplayFault> {
    let mut reader = Plain::new(rt.reader());
    let mut writer = Plain::new(io::writer(rt));
    replay(rt.alloc(), &mut reader, &mut writer)
}

// Writes why the script ended early. A bad line is also printed among the answers, as `dsctl` does.
fn tell(rt: &impl Runtime, fault: ReplayFault) -> ExitCode {
    let _ = eprintln!(rt; "{fault}");
    if let ReplayFault::BadLine { line, place, .. } = fault {
        match println!(rt; "badline {line} {place}") {
            Ok(()) => ExitCode::from(1),
            Err(_) => ExitCode::from(3),
        }
    } else {
        ExitCode::from(3)
    }
}
