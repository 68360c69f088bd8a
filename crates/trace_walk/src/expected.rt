//! Compares the text of a reply with the lines of a trace.

ghost use Rattle.std.specs.Prelude.{◌≡◌, ◌∷◌, IfOk, IfErr};
ghost use Rattle.trace_walk.specs.Reads.{Advances, IsBlameless};
ghost use Rattle.trace_walk.specs.Steps.{ComesToLine, MissesLine, SaysAll, MissesReply, SaysRest, MissesRest, MissesSaid};
ghost use Rattle.trace_walk.specs.Wanting.{IsOfReply};

use crate::entry::next_line;
use crate::fault::WalkFault;
use crate::replies::is_marked;
use line_io::{Lines, Source, split_line};

/// Reads the next line, where one of a reply must follow.
pub(crate) fn reply_line<R: Source>(lines: &mut Lines, reader: &mut R) -> Result<(), WalkFault>
    ensures there { IfOk result (λ u. ComesToLine lines.old (R.remaining reader.old) lines.new (R.remaining reader.new)) }
    ensures fails { IfErr result (MissesLine lines.old (R.remaining reader.old)) }
    ensures kind { IfErr result IsOfReply }
    ensures reads { Advances R.Source result lines.old reader.old lines.new reader.new }
{
    match next_line(lines, reader) {
        Ok(true) => Ok(()),
        Ok(false) => Err(WalkFault::IllegalAt(lines.count() + 1)),
        Err(fault) => Err(WalkFault::of_reply(fault)),
    }
}

/// Compares a reply with the trace, from the line that was reached last.
pub(crate) fn expect<R: Source>(
    lines: &mut Lines,
    reader: &mut R,
    text: &[u8],
) -> Result<(), WalkFault>
    ensures goes { IfOk result (λ u. SaysAll lines.old (R.remaining reader.old) lines.new (R.remaining reader.new) text.now) }
    ensures fails { IfErr result (λ fault. MissesReply lines.old (R.remaining reader.old) text.now fault) }
    ensures kind { IfErr result IsOfReply }
    ensures reads { Advances R.Source result lines.old reader.old lines.new reader.new }
{
    let Some((line, rest)) = split_line(text) else {
        return Ok(());
    };
    said(lines, line)?;
    further(lines, reader, rest)
}

// Compares the further lines of a reply.
fn further<R: Source>(lines: &mut Lines, reader: &mut R, text: &[u8]) -> Result<(), WalkFault>
    ensures goes { IfOk result (λ u. SaysRest lines.old (R.remaining reader.old) lines.new (R.remaining reader.new) text.now) }
    ensures fails { IfErr result (λ fault. MissesRest lines.old (R.remaining reader.old) text.now fault) }
    ensures kind { IfErr result IsOfReply }
    ensures reads { Advances R.Source result lines.old reader.old lines.new reader.new }
{
    let mut rest = text;
    while let Some((line, more)) = split_line(rest) {
        reply_line(lines, reader)?;
        said(lines, line)?;
        rest = more;
    }
    Ok(())
}

// Compares one line of a reply.
fn said(lines: &Lines, line: &[u8]) -> Result<(), WalkFault>
    ensures same { IfOk result (λ u. lines.now.line ≡ 60 ∷ 32 ∷ line.now) }
    ensures fails { IfErr result (λ fault. MissesSaid lines.now line.now fault) }
    ensures kind { IfErr result IsOfReply }
    ensures blames { IfErr result (λ fault. IsBlameless fault) }
{
    if !is_marked(lines.line(), line) {
        return Err(WalkFault::IllegalAt(lines.count()));
    }
    Ok(())
}
