//! `dsctl`: the data store at the command line, from standard input or a file to standard output.
//!
//! The program is thin: `dsctl_cli` parses the command line and has the prompt; `ds_script`, `rs_settings`,
//! `trace_check`, `trace_record` and `ds_live` do the work; `ds_explain` explains bad lines. This crate prints
//! settings, verdicts and reports and chooses the exit status. 0: done, or a prompt ended. 1: refused input. 2: usage. 3: memory, reading,
//! writing or a run of threads failed, and standard error says which.
#![tactic(auto)]

mod keeping;
mod live;
mod recording;
mod replaying;
mod settings;
mod stepped;
mod traces;
mod watch;

use crate::keeping::Files;
use dsctl_cli::{Asked, Failure, Input, Terminals, Words};
use std::io::IsTerminal;
use std::process::ExitCode;
use std::rt::Runtime;
use std::sync::Wait;
use std::thread::Threads;

fn main(rt: HostRuntime) -> ExitCode {
    let terminals = Terminals {
        input: rt.stdin().is_terminal(),
        error: rt.stderr().is_terminal(),
    };
    match run(&rt, terminals) {
        Ok(status) => status,
        Err(failure) => {
            failure.tell(&rt, terminals);
            failure.status()
        }
    }
}

// Parses the command line before any input is read, then does what it asks for.
fn run<R: Runtime + AllocGlobal + Threads + Wait + Sync>(
    rt: &R,
    terminals: Terminals,
) -> Result<ExitCode, Failure> {
    let Asked {
        words,
        file,
        load,
        save,
    } = dsctl_cli::read(rt);
    let files = Files {
        script: named(&file),
        load: named(&load),
        save: named(&save),
    };
    match words {
        Words::Live(crew) => live::run(rt, terminals, crew),
        Words::Shown => Ok(ExitCode::SUCCESS),
        Words::Usage => Ok(ExitCode::from(2)),
        Words::NoRoom => Err(Failure::NoRoom),
        Words::WriteFault(error) => Err(Failure::WriteFault(Some(error))),
        reading => read_input(rt, terminals, reading, files),
    }
}

fn named(name: &Option<String>) -> Option<&str> {
    name.as_ref().map(|it| it.as_str())
}

// Opens the input that the command line names, and does what is asked for with it.
fn read_input<R: Runtime + AllocGlobal>(
    rt: &R,
    terminals: Terminals,
    words: Words,
    files: Files<'_>,
) -> Result<ExitCode, Failure> {
    let Ok(input) = Input::open(rt, files.script) else {
        return Err(Failure::Unopened);
    };
    let terminals = terminals.at(&input);
    match words {
        Words::Settings { as_line } => settings::show_input(rt, terminals, input, as_line),
        Words::Verify => traces::judge_input(rt, terminals, input),
        Words::Upgrade => traces::upgrade_input(rt, terminals, input),
        Words::Record(form) => recording::record_input(rt, terminals, input, form),
        Words::Replay(replaying) => {
            replaying::replay_input(rt, terminals, input, replaying, files)
        }
        _ => Ok(ExitCode::from(2)),
    }
}
