//! One read of a replay, and the answers to its lines.

ghost use Rattle.std.specs.Prelude.{◌≡◌, ◌<◌, ◌≤◌, ◌+◌, ◌^◌, true, suc, IfOk};
ghost use Rattle.line_io.specs.Lines.{IsUnbroken};
ghost use Rattle.ds_script.specs.Taking.{KeepsWriter, TakesTurn, KeepsCount};

use crate::fault::ReplayFault;
use crate::report::Report;
use crate::taking::Replay;
use line_io::{Filled, Lines, Sink, Source, send};

impl<W: Sink, B: Report> Replay<'_, W, B> {
    /// Writes the waiting answers, reads once, and answers all whole lines; at the end, also the last line, and writes
    /// its answer. Returns whether there may be more to read.
    pub(crate) fn take_turn<R: Source>(
        &mut self,
        reader: &mut R,
        lines: &mut Lines,
    ) -> Result<bool, ReplayFault>
        requires unbroken { IsUnbroken lines.old.rest }
        requires count { self.old.tally.lines ≤ lines.old.count + 2 ^ 32 }
        requires reads { lines.old.reads < 2 ^ 32 }
        ensures same { KeepsWriter self.old self.new }
        ensures turns { TakesTurn R.Source W.Sink reader.old reader.new self.old self.new lines.old.rest lines.new.rest result }
        ensures more { IfOk result (λ more. more ≡ true → KeepsCount self.new lines.old lines.new) }
    {
        send(self.writer, &mut self.output)?;
        self.take_read(reader, lines)
    }

    // Like `take_turn`, without first writing the waiting answers. An interrupted read answers nothing, and there may be more to read.
    fn take_read<R: Source>(
        &mut self,
        reader: &mut R,
        lines: &mut Lines,
    ) -> Result<bool, ReplayFault>
        requires unbroken { IsUnbroken lines.old.rest }
        requires count { self.old.tally.lines ≤ lines.old.count + 2 ^ 32 }
        requires reads { lines.old.reads < 2 ^ 32 }
        ensures same { KeepsWriter self.old self.new }
        ensures turns { TakesTurn R.Source W.Sink reader.old reader.new self.old self.new lines.old.rest lines.new.rest result }
        ensures more { IfOk result (λ more. more ≡ true → KeepsCount self.new lines.old lines.new) }
    {
        match lines.read(reader) {
            Filled::More => {
                self.take_whole(lines)?;
                Ok(true)
            }
            Filled::Interrupted => Ok(true),
            Filled::End => {
                self.take_last(lines)?;
                Ok(false)
            }
            Filled::Failed => Err(ReplayFault::ReadFault),
            Filled::NoRoom => Err(ReplayFault::NoRoom),
        }
    }
}
