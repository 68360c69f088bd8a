//! The trace of a run.

use ds_explain::{WithTail, explain_recorded};
use ds_held::Limits;
use dsctl_cli::{Answers, Failure, Greeting, Input, Terminals, TraceForm, Typed, greet};
use line_io::Plain;
use std::io;
use std::process::ExitCode;
use std::rt::Runtime;
use trace_record::{Form, RecordFault, Recording};

/// Runs a store on the commands of the input, and writes the trace of that run. Standard error gets the number and
/// place of a bad line, and what is wrong with it. Greets a user at a terminal.
pub(crate) fn record_input<R: Runtime + AllocGlobal>(
    rt: &R,
    terminals: Terminals,
    input: Input<R>,
    form: TraceForm,
) -> Result<ExitCode, Failure> {
    greet(rt, terminals, Greeting::Commands);
    let mut reader = Plain::new(WithTail::new(Typed::unprompted(rt, input)));
    let mut writer = Plain::new(Answers::new(rt, io::writer(rt)));
    let recorded = match Recording::open(rt.alloc(), &mut reader, form_of(form)) {
        Ok(recording) => recording.record(&mut reader, &mut writer),
        Err(fault) => Err(fault),
    };
    outcome(rt, recorded, &mut reader, writer.fault)
}

// Returns the exit status of a recording, or why the input or the trace failed.
fn outcome<R: Runtime + AllocGlobal>(
    rt: &R,
    recorded: Result<u64, RecordFault>,
    reader: &mut Plain<WithTail<Typed<'_, R>>>,
    unwritten: Option<io::Error>,
) -> Result<ExitCode, Failure> {
    match recorded {
        Ok(_) => Ok(ExitCode::SUCCESS),
        Err(RecordFault::BadLine { line, place }) => {
            let _ = eprintln!(rt; "badline {line} {place}");
            explain_recorded(rt, line, place, reader.inner.from_line(line));
            Ok(ExitCode::from(1))
        }
        Err(RecordFault::ReadFault) => Err(Failure::ReadFault(reader.fault)),
        Err(RecordFault::WriteFault) => Err(Failure::WriteFault(unwritten)),
        Err(RecordFault::NoRoom) => Err(Failure::NoRoom),
    }
}

// Returns the form that the command line names.
fn form_of(form: TraceForm) -> Form {
    match form {
        TraceForm::One => Form::One,
        TraceForm::SmallerTwo => Form::Two(Limits::smaller()),
        TraceForm::Two => Form::Two(Limits::larger()),
    }
}
