//! Records a run of one store.

ghost use Rattle.std.specs.Prelude.{◌≡◌, OnOk, IfOk, IfErr};
ghost use Rattle.line_io.specs.Streams.{OnlyCalls};
ghost use Rattle.trace_record.specs.Causes.{ReadsLead, RunIsCaused, SettlesBy};
ghost use Rattle.trace_record.specs.Begun.{HasBegun, RecordsAll, StopsBefore};
ghost use Rattle.trace_record.specs.Reading.{IsReady};
ghost use Rattle.trace_record.specs.Running.{RunsOn, WritesRest};

use crate::begin::begin;
use crate::fault::RecordFault;
use crate::form::Form;
use crate::line::next_command;
use crate::opened::Recording;
use crate::recorder::Recorder;
use crate::waiting::send_waiting;
use line_io::{Lines, Sink, Source, write_out};
use std::alloc::Global;

impl Recording {
    /// Opens the store, and reads the first line of a command, after any line `ring N`.
    ///
    /// The store has incarnation 1, its positions begin at 0, and its journal keeps 256 items, or as many as a first line
    /// `ring N` says. Fails only as NoRoom: out of memory for the first line or for the store.
    pub fn open<R: Source>(
        alloc: Global,
        reader: &mut R,
        form: Form,
    ) -> Result<Recording, RecordFault>
        ensures ready { IfOk result (λ r. IsReady r.recorder.entry.lines r.next) }
        ensures begun { IfOk result (HasBegun form (R.remaining reader.old) (R.remaining reader.new)) }
        ensures reads { IfOk result (λ r. ReadsLead R.Source r.next reader.old reader.new r.recorder.entry.lines.reads) }
        ensures fault { IfErr result (λ fault. fault ≡ RecordFault.NoRoom) }
    {
        let mut lines = Lines::new(alloc)?;
        let beginning = begin(alloc, &mut lines, reader)?;
        let recorder = Recorder::open(alloc, lines, form, beginning.ring)?;
        Ok(Recording {
            recorder,
            next: beginning.next,
        })
    }

    /// Runs the store on the lines of the input, in order, and writes the trace of that run. Returns how many entries it has.
    ///
    /// A line is a command as in a trace of this form, without `> ` and perhaps without a pass, which is 0 then. `merge N` is
    /// followed by the lines of N items. The last newline may be missing. An input without lines gives the header alone.
    ///
    /// An entry is written before the next read, unless the end of another line was read already; those entries are written
    /// together.
    ///
    /// Errors: BadLine, for a line that isn't a command, or is above 4096 bytes in the input or in the trace; ReadFault, if
    /// a read failed or 2^32 reads were made; WriteFault, if a write failed; NoRoom, out of memory for a line, its command
    /// or the text of its reply. Out of memory in the store itself is a reply, and is recorded. The output before a fault
    /// is a legal trace of the first lines; after WriteFault, a front of one.
    pub fn record<R: Source, W: Sink>(
        self,
        reader: &mut R,
        writer: &mut W,
    ) -> Result<u64, RecordFault>
        requires { IsReady self.recorder.entry.lines self.next }
        ensures written { IfOk result (RecordsAll self (R.remaining reader.old) (W.contents writer.old) (W.contents writer.new)) }
        ensures stopped { IfErr result (StopsBefore self (R.remaining reader.old) (W.contents writer.old) (W.contents writer.new)) }
        ensures cause { IfErr result
            (RunIsCaused R.Source W.Sink self.next reader.old reader.new self.recorder.entry.lines.reads writer.old writer.new) }
    {
        let Recording { mut recorder, next } = self;
        match run(&mut recorder, reader, writer, next) {
            Ok(count) => {
                write_out(writer, recorder.output.as_slice())?;
                Ok(count)
            }
            Err(fault) => Err(settled(writer, recorder.output.as_slice(), fault)),
        }
    }
}

// Records entry by entry. `first` is the result of reading the first command's line.
fn run<R: Source, W: Sink>(
    recorder: &mut Recorder,
    reader: &mut R,
    writer: &mut W,
    first: Result<bool, RecordFault>,
) -> Result<u64, RecordFault>
    requires { IsReady recorder.old.entry.lines first }
    ensures led { OnOk result (OnlyCalls W.writes writer.old writer.new) }
    ensures runs { RunsOn recorder.old (R.remaining reader.old) (W.contents writer.old) first recorder.new (W.contents writer.new) result }
    ensures cause { IfErr result
        (RunIsCaused R.Source W.Sink first reader.old reader.new recorder.old.entry.lines.reads writer.old writer.new) }
{
    let mut next = first;
    for count in 0..u64::MAX {
        match next {
            Ok(true) => {}
            Ok(false) => return Ok(count),
            Err(fault) => return Err(fault),
        }
        recorder.entry(reader)?;
        send_waiting(writer, &mut recorder.output, recorder.entry.lines.front())?;
        next = next_command(&mut recorder.entry.lines, reader);
    }
    // No input has this many lines: 2^32 reads bring fewer.
    Err(RecordFault::NoRoom)
}

// Writes the waiting entries after a fault, and returns the fault. A writer that failed isn't called again.
fn settled<W: Sink>(writer: &mut W, output: &[u8], fault: RecordFault) -> RecordFault
    ensures settles { WritesRest fault (W.contents writer.old) (W.contents writer.new) output.now result }
    ensures cause { SettlesBy W.Sink fault writer.old writer.new result }
{
    match fault {
        RecordFault::WriteFault => fault,
        _ => match write_out(writer, output) {
            Ok(()) => fault,
            Err(_) => RecordFault::WriteFault,
        },
    }
}
