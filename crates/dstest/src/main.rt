//! `dstest`: the program for tests.
//!
//! Standard input has sections. Each begins with a line `=== NAME`, and has the lines up to the next such line:
//! `rows`, `desk`, `threads`, `pairs`, `system` or `rs`. The crates that answer the sections describe their lines.
//! Sections are answered in order.
//!
//! Status 0: done. 1: a line can't be read, or a call's answer was wrong. 3: memory, reading or writing failed, or a
//! pass of a desk was refused a note; standard error says which.
#![tactic(auto)]

use std::io::{ErrorKind, Read};
use std::process::ExitCode;
use std::rt::Runtime;
use std::sync::Wait;
use std::thread::Threads;
use test_kit::Failure;

fn main(rt: HostRuntime) -> ExitCode {
    let Err(failure) = run(&rt) else {
        return ExitCode::SUCCESS;
    };
    let Some(word) = failure.word() else {
        return ExitCode::from(1);
    };
    let _ = eprintln!(rt; "{word}");
    ExitCode::from(3)
}

// Reads the input, and answers it.
fn run<R: Runtime + AllocGlobal + Threads + Wait + Sync>(rt: &R) -> Result<(), Failure> {
    let input = read_input(rt)?;
    answer_sections(rt, input.as_str())
}

fn read_input(rt: &(impl Runtime + AllocGlobal)) -> Result<String, Failure> {
    let mut text = String::new(rt.alloc());
    match rt.reader().read_to_string(&mut text) {
        Ok(_) => Ok(text),
        Err(error) => match error.kind() {
            ErrorKind::OutOfMemory => Err(Failure::NoRoom),
            _ => Err(Failure::ReadFault),
        },
    }
}

// Answers the sections in order.
fn answer_sections<R: Runtime + AllocGlobal + Threads + Wait + Sync>(
    rt: &R,
    input: &str,
) -> Result<(), Failure> {
    let sections = input.strip_prefix("=== ").ok_or(Failure::BadLine)?;
    for section in sections.split("\n=== ") {
        answer_section(rt, section)?;
    }
    Ok(())
}

fn answer_section<R: Runtime + AllocGlobal + Threads + Wait + Sync>(
    rt: &R,
    section: &str,
) -> Result<(), Failure> {
    let (name, lines) = section.split_once('\n').unwrap_or((section, ""));
    match name {
        "desk" => test_desk::answer(rt, lines),
        "threads" => test_threads::answer(rt, lines),
        "pairs" => test_pairs::answer(rt, lines),
        _ => answer_alone(rt, name, lines),
    }
}

// Answers a section that makes no threads.
fn answer_alone(rt: &(impl Runtime + AllocGlobal), name: &str, lines: &str) -> Result<(), Failure> {
    match name {
        "rows" => test_rows::answer(rt),
        "system" => test_system::answer_systems(rt, lines),
        "rs" => test_system::answer_rs(rt, lines),
        _ => Err(Failure::BadLine),
    }
}
