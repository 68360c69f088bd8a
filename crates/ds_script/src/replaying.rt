//! The replay of a script of format 2.

ghost use Rattle.std.specs.Prelude.{ℕ, List, IfOk, IfErr, IfSome};
ghost use Rattle.std.specs.Io.KnownBytes.{Appends};
ghost use Rattle.ds_script.specs.Replay.{IsReplayedIn};
ghost use Rattle.ds_script.specs.NoteCauses.{IsCausedBy};
ghost use Rattle.ds_script.specs.Left.{text_left};
ghost use Rattle.ds_script.specs.Stops.{StopsWhatIsLeft};
ghost use Rattle.ds_script.specs.declared.place.Place.TheVariants.{Begins};

use crate::fault::ReplayFault;
use crate::place::Place;
use crate::report::{BadLines, Report};
use crate::session::Session;
use crate::stream::{Replayed, replay_reporting};
use crate::without_notes::WithoutNotes;
use line_io::{Sink, Source};
use std::alloc::Global;

/// Answers the lines after `script 2`, as `replay_reporting` answers what is left of them when comments and empty lines
/// are taken away. A line is a comment if its first byte is a number sign. Lines are counted in what is left.
pub fn replay_without_notes<R: Source, W: Sink, B: Report>(
    alloc: Global,
    session: Session,
    before: u32,
    reader: &mut R,
    writer: &mut W,
    report: &mut B,
    bad_lines: BadLines,
) -> Result<Replayed, ReplayFault>
    ensures answered { IfOk result (λ done. IfSome (R.remaining reader.old) (λ text. (output : List ℕ)
        × Appends (W.contents writer.old) (W.contents writer.new) output
        × IsReplayedIn bad_lines before session done.session (text_left Begins text) done.lines done.bad output)) }
    ensures stopped { IfErr result (λ fault. IfSome (R.remaining reader.old) (λ text.
        StopsWhatIsLeft bad_lines before session fault (W.contents writer.old) (W.contents writer.new) text)) }
    ensures cause { IfErr result (λ fault. IsCausedBy R.Source W.Sink fault reader.old reader.new writer.old writer.new) }
{
    let mut left = WithoutNotes {
        reader,
        place: Place::Begins,
    };
    match replay_reporting(alloc, session, before, &mut left, writer, report, bad_lines) {
        Ok(done) => Ok(done),
        Err(fault) => Err(fault),
    }
}
