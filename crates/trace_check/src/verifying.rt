//! The verdict on a trace.

ghost use Rattle.std.specs.Prelude.{IfSome};
ghost use Rattle.trace_walk.specs.Verdict.{IsVerdict};
ghost use Rattle.trace_check.specs.Telling.{EndsWanting, WantsRightly};
ghost use Rattle.trace_check.specs.Verifying.{EndsWith, IsVerdictCause, IsWalkedCause};

use crate::judged::Judged;
use line_io::Source;
use std::alloc::Global;
use trace_walk::{Verdict, Walk};

/// Judges a trace of format 1 or 2. If it isn't legal, the verdict names the first line, from 1, that no legal trace
/// has in its place, even if that line is missing. ReadFault comes only if the last read failed, or 2^32 reads were made.
///
/// The verdict is on all that the reader has, however little of it was read. Memory is bounded by what the store holds
/// and by the longest line, not by the length of the trace.
pub fn verify<R: Source>(alloc: Global, reader: &mut R) -> Verdict
    ensures verdict { IfSome (R.remaining reader.old) (λ bytes. IsVerdict bytes result) }
    ensures cause { IsVerdictCause R.Source result reader.old reader.new }
{
    judge(alloc, reader).verdict
}

/// Judges a trace as `verify` does, and keeps what is needed to explain its first wrong line.
pub fn judge<R: Source>(alloc: Global, reader: &mut R) -> Judged
    ensures verdict { IfSome (R.remaining reader.old) (λ bytes. IsVerdict bytes result.verdict) }
    ensures wanted { IfSome (R.remaining reader.old) (λ bytes. WantsRightly bytes result) }
    ensures cause { IsVerdictCause R.Source result.verdict reader.old reader.new }
{
    match Walk::begin(alloc, reader) {
        Ok(mut walk) => {
            let verdict = walk_through(&mut walk, reader);
            Judged {
                verdict,
                walk: Some(walk),
            }
        }
        Err(fault) => Judged {
            verdict: fault.verdict(),
            walk: None,
        },
    }
}

// Passes all entries.
fn walk_through<R: Source>(walk: &mut Walk, reader: &mut R) -> Verdict
    ensures ends { EndsWith walk.old (R.remaining reader.old) result }
    ensures wanted { EndsWanting walk.old (R.remaining reader.old) walk.new result }
    ensures cause { IsWalkedCause R.Source result walk.old.entry.lines.reads reader.old reader.new }
{
    for length in 0..u64::MAX {
        match walk.next(reader) {
            Ok(Some(_)) => {}
            Ok(None) => return Verdict::Legal { length },
            Err(fault) => return fault.verdict(),
        }
    }
    // No input has this many entries: 2^32 reads bring fewer.
    Verdict::ReadFault
}
