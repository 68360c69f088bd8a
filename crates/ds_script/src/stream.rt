//! A whole replay: from a reader's lines to a writer's answers.

ghost use Rattle.std.specs.Prelude.{◌≡◌, ℕ, List, IfOk, IfErr, OnOk};
ghost use Rattle.std.specs.Io.KnownBytes.{Appends, Consumes, IsAtEnd};
ghost use Rattle.ds_script.specs.declared.report.BadLines.TheVariants.{End};
ghost use Rattle.ds_script.specs.Replay.{IsReplayed, IsReplayedIn, StopsLater, StopsWith};
ghost use Rattle.ds_script.specs.Progress.{Stops, Settles};
ghost use Rattle.ds_script.specs.Causes.{HasCause, SettlesFor};
ghost use Rattle.ds_script.specs.Taking.{KeepsWriter, IsAtStart};
ghost use Rattle.line_io.specs.Reading.{no_lines};

use crate::fault::ReplayFault;
use crate::report::{BadLines, Nobody, Report};
use crate::session::{RING, Session};
use crate::taking::Replay;
use crate::tally::Tally;
use line_io::{Lines, Sink, Source, WriteFailed, write_out};
use std::alloc::Global;

/// What a replay leaves.
#[derive(Drop)]
pub struct Replayed {
    /// How many lines of the session were answered so far.
    pub lines: u64,
    /// How many of this replay's aren't commands.
    pub bad: u64,
    /// The session.
    pub session: Session,
}

/// Answers the lines of a script, in order, and returns how many there were.
///
/// The world is new: the store of side a has incarnation 1, that of side b 2; their journals begin at position 0 and
/// keep 256 items, or as many as a first line `ring N` says; each has 128 subscriptions and 4096 keys at most. Side a
/// is current at first.
///
/// The output is the answers in the order of the lines, and nothing else. Each answer is written before the next read,
/// so a person at a terminal sees it at once; the answers to lines of one read are written together. A line for which
/// memory runs out is answered `refused noroom`, and changes nothing. Memory is bounded by the longest line and by what
/// the world holds, not by the length of the input.
///
/// Errors: BadLine, for a line that isn't a command, which has no answer; ReadFault, if a read failed or 2^32 reads
/// were made; WriteFault, if a write failed, after which nothing more is written; NoRoom, out of memory for the
/// buffers. All lines before are answered then, and their answers are written unless the writer failed.
pub fn replay<R: Source, W: Sink>(
    alloc: Global,
    reader: &mut R,
    writer: &mut W,
) -> Result<u64, ReplayFault>
    ensures answered { IfOk result (λ count. (input output : List ℕ)
        × Consumes (R.remaining reader.old) (R.remaining reader.new) input × IsAtEnd (R.remaining reader.new)
        × Appends (W.contents writer.old) (W.contents writer.new) output
        × IsReplayed End input count 0 output) }
    ensures stopped { IfErr result (λ fault. (input output : List ℕ)
        × Consumes (R.remaining reader.old) (R.remaining reader.new) input
        × Appends (W.contents writer.old) (W.contents writer.new) output
        × StopsWith End fault (R.remaining reader.new) input output) }
    ensures cause { IfErr result (λ fault. HasCause R.Source W.Sink fault reader.old reader.new writer.old writer.new) }
{
    let Ok(session) = Session::open(alloc, RING) else {
        return Err(ReplayFault::NoRoom);
    };
    let ended = replay_reporting(
        alloc,
        session,
        0,
        reader,
        writer,
        &mut Nobody,
        BadLines::End,
    );
    match ended {
        Ok(done) => Ok(done.lines),
        Err(fault) => Err(fault),
    }
}

/// Answers the lines of a script in a session, as `replay` does in a new one, but handles lines that aren't commands as
/// `bad_lines` says. Each such line is reported after the answers before it, and its own if it has one, are written.
///
/// The script continues one of which `before` lines were answered: only if there were none may it begin with `ring`,
/// and its lines are counted from there on. Returns how many lines there were so far, and how many of these were bad.
/// The session that it returns is where the answers lead; if it stops
/// early, the session ends.
///
/// Where bad lines don't end the replay, a line is kept until its end is read, and one above 16777216 bytes ends it
/// with NoRoom.
pub fn replay_reporting<R: Source, W: Sink, B: Report>(
    alloc: Global,
    session: Session,
    before: u32,
    reader: &mut R,
    writer: &mut W,
    report: &mut B,
    bad_lines: BadLines,
) -> Result<Replayed, ReplayFault>
    ensures answered { IfOk result (λ done. (input output : List ℕ)
        × Consumes (R.remaining reader.old) (R.remaining reader.new) input × IsAtEnd (R.remaining reader.new)
        × Appends (W.contents writer.old) (W.contents writer.new) output
        × IsReplayedIn bad_lines before session done.session input done.lines done.bad output) }
    ensures stopped { IfErr result (λ fault. (input output : List ℕ)
        × Consumes (R.remaining reader.old) (R.remaining reader.new) input
        × Appends (W.contents writer.old) (W.contents writer.new) output
        × StopsLater bad_lines before session fault (R.remaining reader.new) input output) }
    ensures cause { IfErr result (λ fault. HasCause R.Source W.Sink fault reader.old reader.new writer.old writer.new) }
{
    let Ok(mut lines) = Lines::new(alloc) else {
        return Err(ReplayFault::NoRoom);
    };
    replay_over(
        alloc, session, before, &mut lines, reader, writer, report, bad_lines,
    )
}

// Likewise, with lines of which none was read.
fn replay_over<R: Source, W: Sink, B: Report>(
    alloc: Global,
    session: Session,
    before: u32,
    lines: &mut Lines,
    reader: &mut R,
    writer: &mut W,
    report: &mut B,
    policy: BadLines,
) -> Result<Replayed, ReplayFault>
    requires nothing { lines.old ≡ no_lines }
    ensures answered { IfOk result (λ done. (input output : List ℕ)
        × Consumes (R.remaining reader.old) (R.remaining reader.new) input × IsAtEnd (R.remaining reader.new)
        × Appends (W.contents writer.old) (W.contents writer.new) output
        × IsReplayedIn policy before session done.session input done.lines done.bad output) }
    ensures stopped { IfErr result (λ fault. (input output : List ℕ)
        × Consumes (R.remaining reader.old) (R.remaining reader.new) input
        × Appends (W.contents writer.old) (W.contents writer.new) output
        × StopsLater policy before session fault (R.remaining reader.new) input output) }
    ensures cause { IfErr result (λ fault. HasCause R.Source W.Sink fault reader.old reader.new writer.old writer.new) }
{
    let mut replay = Replay {
        alloc,
        writer,
        report,
        session,
        output: Vec::new(alloc),
        tally: Tally {
            lines: before as u64,
            bad: 0,
        },
        bad_lines: policy,
    };
    let ran = replay.run(reader, lines);
    let Replay {
        writer,
        session,
        output,
        tally,
        ..
    } = replay;
    match ran {
        Ok(()) => Ok(Replayed {
            lines: tally.lines,
            bad: tally.bad,
            session,
        }),
        Err(fault) => Err(settled(writer, &output, fault)),
    }
}

impl<W: Sink, B: Report> Replay<'_, W, B> {
    // Reads and answers until the input ends, or until no more can be read or answered.
    fn run<R: Source>(&mut self, reader: &mut R, lines: &mut Lines) -> Result<(), ReplayFault>
        requires start { IsAtStart self.old.tally.lines self.old lines.old }
        ensures same { KeepsWriter self.old self.new }
        ensures ok { OnOk result ((input output : List ℕ)
            × Consumes (R.remaining reader.old) (R.remaining reader.new) input × IsAtEnd (R.remaining reader.new)
            × Appends (W.contents self.old.writer.now) (W.contents self.new.writer.now) output
            × IsReplayedIn self.old.bad_lines self.old.tally.lines self.old.session self.new.session input
            self.new.tally.lines self.new.tally.bad output) }
        ensures err { IfErr result (λ fault. (input output : List ℕ)
            × Consumes (R.remaining reader.old) (R.remaining reader.new) input
            × Appends (W.contents self.old.writer.now) (W.contents self.new.writer.now) output
            × Stops self.old.bad_lines self.old.tally.lines self.old.session fault (R.remaining reader.new) input output
            self.new.output.items) }
        ensures cause { IfErr result (λ fault.
            HasCause R.Source W.Sink fault reader.old reader.new self.old.writer.now self.new.writer.now) }
    {
        while lines.may_read() {
            let more = self.take_turn(reader, lines)?;
            if !more {
                return Ok(());
            }
        }
        Err(ReplayFault::ReadFault)
    }
}

// Writes the waiting answers after a fault, and returns the fault. A writer that failed isn't called again.
fn settled<W: Sink>(writer: &mut W, output: &[u8], fault: ReplayFault) -> ReplayFault
    ensures settles { Settles result fault (W.contents writer.old) (W.contents writer.new) output.now }
    ensures cause { SettlesFor W.Sink result fault writer.old writer.new }
{
    match fault {
        ReplayFault::WriteFault => fault,
        _ => match write_out(writer, output) {
            Ok(()) => fault,
            Err(WriteFailed) => ReplayFault::WriteFault,
        },
    }
}
