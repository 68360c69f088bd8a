//! The verdict on a recorded trace, and the upgrade of one from format 1 to 2.

use ds_explain::{WithFront, WithTail, explain_trace, explain_upgrade};
use dsctl_cli::{Answers, Failure, Greeting, Input, Terminals, Typed, greet};
use line_io::Plain;
use std::io;
use std::process::ExitCode;
use std::rt::Runtime;
use trace_check::{Judged, Stands, UpgradeFault, Verdict, Wanted, WrongLine, judge, upgrade};
use typed_text::TextKind;

/// Judges a trace, and prints the verdict. If the trace isn't legal, standard error gets what was expected in the first
/// wrong line. Greets a user at a terminal.
pub(crate) fn judge_input<R: Runtime + AllocGlobal>(
    rt: &R,
    terminals: Terminals,
    input: Input<R>,
) -> Result<ExitCode, Failure> {
    greet(rt, terminals, Greeting::Trace);
    let mut reader = Plain::new(WithFront::new(Typed::unprompted(rt, input)));
    let judged = judge(rt.alloc(), &mut reader);
    tell_verdict(rt, &judged, &reader)
}

// Prints the verdict on a trace, and explains what is wrong with it.
fn tell_verdict<R: Runtime + AllocGlobal>(
    rt: &R,
    judged: &Judged,
    reader: &Plain<WithFront<Typed<'_, R>>>,
) -> Result<ExitCode, Failure> {
    let (word, number) = match judged.verdict {
        Verdict::Legal { length } => ("legal", length),
        Verdict::IllegalAt(line) => ("illegal", line),
        Verdict::BadLineAt(line) => ("badline", line),
        Verdict::ReadFault => return Err(Failure::ReadFault(reader.fault)),
        Verdict::NoRoom => return Err(Failure::NoRoom),
    };
    match println!(rt; "{word} {number}") {
        Ok(()) => Ok(explain_wrong_line(rt, judged, &reader.inner)),
        Err(error) => Err(Failure::WriteFault(Some(error))),
    }
}

// Writes to standard error what was expected in the first wrong line, if there is one.
fn explain_wrong_line<R: Runtime + AllocGlobal>(
    rt: &R,
    judged: &Judged,
    input: &WithFront<Typed<'_, R>>,
) -> ExitCode {
    match judged.wrong_line() {
        None => ExitCode::SUCCESS,
        Some(wrong) => {
            let wrong = with_header(wrong, input.first_line());
            explain_trace(rt, &wrong, TextKind::of(input.kept()));
            ExitCode::from(1)
        }
    }
}

// Returns the wrong line, with the trace's first line if a header was expected: the walk doesn't keep that one.
fn with_header<'a>(wrong: WrongLine<'a>, first_line: &'a [u8]) -> WrongLine<'a> {
    match wrong.wanted {
        Wanted::Header => WrongLine {
            stands: Stands::Line(first_line),
            ..wrong
        },
        _ => wrong,
    }
}

/// Writes a trace of format 1 in format 2. If it can't be upgraded, standard error gets a word and a line number; at a
/// terminal also what is wrong there. Greets a user at a terminal.
pub(crate) fn upgrade_input<R: Runtime + AllocGlobal>(
    rt: &R,
    terminals: Terminals,
    input: Input<R>,
) -> Result<ExitCode, Failure> {
    greet(rt, terminals, Greeting::Trace);
    let mut reader = Plain::new(WithTail::new(Typed::unprompted(rt, input)));
    let mut writer = Plain::new(Answers::new(rt, io::writer(rt)));
    let upgraded = upgrade(rt.alloc(), &mut reader, &mut writer);
    outcome(rt, terminals, upgraded, &mut reader, writer.fault)
}

// Returns the exit status of an upgrade, or why reading or writing failed.
fn outcome<R: Runtime + AllocGlobal>(
    rt: &R,
    terminals: Terminals,
    upgraded: Result<u64, UpgradeFault>,
    reader: &mut Plain<WithTail<Typed<'_, R>>>,
    unwritten: Option<io::Error>,
) -> Result<ExitCode, Failure> {
    match upgraded {
        Ok(_) => Ok(ExitCode::SUCCESS),
        Err(UpgradeFault::ReadFault) => Err(Failure::ReadFault(reader.fault)),
        Err(UpgradeFault::WriteFault) => Err(Failure::WriteFault(unwritten)),
        Err(UpgradeFault::NoRoom) => Err(Failure::NoRoom),
        Err(fault) => {
            let _ = rt.eprintln(fault);
            if terminals.error {
                explain_upgrade(rt, fault, wrong_line(&mut reader.inner, fault));
            }
            Ok(ExitCode::from(1))
        }
    }
}

// Returns the text from the line on that a fault is about, if it was read.
fn wrong_line<'a, R: Runtime>(
    input: &'a mut WithTail<Typed<'_, R>>,
    fault: UpgradeFault,
) -> Option<&'a [u8]> {
    match fault {
        UpgradeFault::IllegalAt(number) | UpgradeFault::BadLineAt(number) => input.from_line(
            number,
        ),
        _ => None,
    }
}
