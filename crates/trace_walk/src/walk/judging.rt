//! Judges the replies of a trace.

ghost use Rattle.std.specs.Prelude.{◌≡◌, ◌≢◌, ◌<◌, length, None, IfOk, IfErr};
ghost use Rattle.trace_walk.specs.declared.asked.Asked.TheVariants as askeds;
ghost use Rattle.trace_walk.specs.Noroom.{noroom_line, stopped_line};
ghost use Rattle.trace_walk.specs.Reads.{Advances};
ghost use Rattle.trace_walk.specs.Steps.{GoesAfter, FailsAfter, GoesPastReply, FailsAtReply, HasRefused, PassesLine};
ghost use Rattle.trace_walk.specs.Steps.{PassesSweep, PassesMerge, FailsAtMerge, PassesPlain, FailsAtPlain};
ghost use Rattle.trace_walk.specs.Steps.{PassesFor, FailsFor, SaysReply, FailsToSay, swept_line};
ghost use Rattle.trace_walk.specs.Sweeping.{older_of};
ghost use Rattle.trace_walk.specs.Passing.{IsRefusedAs};
ghost use Rattle.trace_walk.specs.Wanting.{IsOfReply};

use super::Walk;
use crate::asked::Asked;
use crate::expected::{expect, reply_line};
use crate::fault::WalkFault;
use crate::header::Format;
use crate::merges::Merges;
use crate::passed::Passed;
use crate::replies::is_noroom;
use crate::stopping::{stop_of, stopped, wants_room};
use crate::sweep::{Sweep, older, sweep_older};
use ds_entry::Items;
use ds_machine::{Command, Reply};
use line_io::Source;
use script_answers::{Wording, append_noroom, append_reply};
use script_commands::ScriptCommand;
use std::alloc::Global;

impl Walk {
    /// Reads the reply to a command, which must be the store's.
    pub(crate) fn judge<R: Source>(
        &mut self,
        reader: &mut R,
        pass: u64,
        asked: Asked,
    ) -> Result<Passed, WalkFault>
        ensures goes { IfOk result (GoesAfter self.old (R.remaining reader.old) pass asked self.new (R.remaining reader.new)) }
        ensures fails { IfErr result (FailsAfter self.old (R.remaining reader.old) pass asked) }
        ensures kind { IfErr result IsOfReply }
        ensures reads { Advances R.Source result self.old.entry.lines reader.old self.new.entry.lines reader.new }
    {
        match reply_line(&mut self.entry.lines, reader) {
            Ok(()) => {
                self.first = self.entry.lines.count();
                self.answered(reader, pass, asked)
            }
            Err(fault) => Err(fault),
        }
    }

    // Judges the reply whose first line was reached. It may be one for out of memory, and then nothing changed.
    fn answered<R: Source>(
        &mut self,
        reader: &mut R,
        pass: u64,
        asked: Asked,
    ) -> Result<Passed, WalkFault>
        ensures goes { IfOk result (GoesPastReply self.old (R.remaining reader.old) pass asked self.new (R.remaining reader.new)) }
        ensures fails { IfErr result (FailsAtReply self.old (R.remaining reader.old) pass asked) }
        ensures kind { IfErr result IsOfReply }
        ensures reads { Advances R.Source result self.old.entry.lines reader.old self.new.entry.lines reader.new }
    {
        if is_noroom(self.entry.lines.line()) {
            return self.judge_noroom(&asked);
        }
        match asked {
            Asked::Line(command) => self.judge_line(reader, pass, command),
            Asked::Merge(items) => self.judge_merge(reader, items),
        }
    }

    // Passes the reply for out of memory that was reached.
    fn judge_noroom(&mut self, asked: &Asked) -> Result<Passed, WalkFault>
        ensures goes { IfOk result (HasRefused self.old asked.now self.new) }
        ensures fault { IfErr result (λ fault. fault ≡ WalkFault.NoRoom) }
    {
        self.reply.clear();
        append_noroom(&mut self.reply)?;
        Ok(refused(self.alloc, asked, self.header.format))
    }

    // Judges the reply to a command on one line.
    fn judge_line<R: Source>(
        &mut self,
        reader: &mut R,
        pass: u64,
        command: ScriptCommand,
    ) -> Result<Passed, WalkFault>
        requires { self.old.entry.lines.line ≢ noroom_line }
        ensures goes { IfOk result (PassesLine self.old (R.remaining reader.old) pass command self.new (R.remaining reader.new)) }
        ensures fails { IfErr result (FailsAtReply self.old (R.remaining reader.old) pass (askeds.Line command)) }
        ensures kind { IfErr result IsOfReply }
        ensures reads { Advances R.Source result self.old.entry.lines reader.old self.new.entry.lines reader.new }
    {
        match older(&command, self.header.format) {
            Some(swept) => self.judge_sweep(reader, pass, swept),
            None => self.judge_plain(reader, command),
        }
    }

    // Judges the reply to a command that isn't a sweep of format 1, whatever its pass.
    fn judge_plain<R: Source>(
        &mut self,
        reader: &mut R,
        command: ScriptCommand,
    ) -> Result<Passed, WalkFault>
        requires line { self.old.entry.lines.line ≢ noroom_line }
        requires plain { older_of self.old.header.format command ≡ None }
        ensures goes { IfOk result (PassesPlain self.old (R.remaining reader.old) command self.new (R.remaining reader.new)) }
        ensures fails { IfErr result (FailsAtPlain self.old (R.remaining reader.old) command) }
        ensures kind { IfErr result IsOfReply }
        ensures reads { Advances R.Source result self.old.entry.lines reader.old self.new.entry.lines reader.new }
    {
        let wording = command.wording();
        match command.into_store_command(self.alloc)? {
            Some(command) => self.ask(reader, wording, command),
            None => Err(WalkFault::NoRoom),
        }
    }

    // Judges the reply to a Merge.
    fn judge_merge<R: Source>(&mut self, reader: &mut R, items: Items) -> Result<Passed, WalkFault>
        requires { self.old.entry.lines.line ≢ noroom_line }
        ensures goes { IfOk result (PassesMerge self.old (R.remaining reader.old) items self.new (R.remaining reader.new)) }
        ensures fails { IfErr result (FailsAtMerge self.old (R.remaining reader.old) items) }
        ensures kind { IfErr result IsOfReply }
        ensures reads { Advances R.Source result self.old.entry.lines reader.old self.new.entry.lines reader.new }
    {
        match stop_of(self.entry.lines.line(), items.len()) {
            Some(done) => self.judge_stopped(reader, &items, done),
            None => self.ask(reader, Wording::AsMerge, Command::Merge { items }),
        }
    }

    // Judges the reply of a Merge that memory stopped after `done` items: those are merged.
    fn judge_stopped<R: Source>(
        &mut self,
        reader: &mut R,
        items: &Items,
        done: usize,
    ) -> Result<Passed, WalkFault>
        requires few { done < length items.now }
        requires line { self.old.entry.lines.line ≡ stopped_line done }
        ensures goes { IfOk result (PassesMerge self.old (R.remaining reader.old) items.now self.new (R.remaining reader.new)) }
        ensures fails { IfErr result (FailsAtMerge self.old (R.remaining reader.old) items.now) }
        ensures kind { IfErr result IsOfReply }
        ensures reads { Advances R.Source result self.old.entry.lines reader.old self.new.entry.lines reader.new }
    {
        let number = self.entry.lines.count();
        let reply = stopped(self.alloc, &mut self.store, items, done, number)?;
        self.says(reader, Wording::AsMerge, &reply, Passed::AsItStands)
    }

    // Judges the reply to a sweep of format 1.
    fn judge_sweep<R: Source>(
        &mut self,
        reader: &mut R,
        pass: u64,
        swept: Sweep,
    ) -> Result<Passed, WalkFault>
        requires line { self.old.entry.lines.line ≢ noroom_line }
        requires format { self.old.header.format ≡ Format.One }
        ensures goes { IfOk result (PassesSweep self.old (R.remaining reader.old) pass swept self.new (R.remaining reader.new)) }
        ensures fails { IfErr result (FailsAtReply self.old (R.remaining reader.old) pass (swept_line swept)) }
        ensures kind { IfErr result IsOfReply }
        ensures reads { Advances R.Source result self.old.entry.lines reader.old self.new.entry.lines reader.new }
    {
        let (reply, merges) = sweep_older(
            self.alloc,
            &mut self.store,
            pass,
            self.header.limits,
            swept,
        )?;
        self.says(reader, Wording::AsMerge, &reply, Passed::Swept(merges))
    }

    // Applies the command to the store, and compares its reply with the trace.
    fn ask<R: Source>(
        &mut self,
        reader: &mut R,
        wording: Wording,
        command: Command,
    ) -> Result<Passed, WalkFault>
        ensures goes { IfOk result (PassesFor wording command self.old (R.remaining reader.old) self.new (R.remaining reader.new)) }
        ensures fails { IfErr result (FailsFor wording command self.old (R.remaining reader.old)) }
        ensures kind { IfErr result IsOfReply }
        ensures reads { Advances R.Source result self.old.entry.lines reader.old self.new.entry.lines reader.new }
    {
        let reply = self.store.apply(command);
        if wants_room(&reply) {
            return Err(WalkFault::NoRoom);
        }
        self.says(reader, wording, &reply, Passed::AsItStands)
    }

    // Compares the reply with the trace, from the line that was reached last. Returns what the entry is in format 2.
    fn says<R: Source>(
        &mut self,
        reader: &mut R,
        wording: Wording,
        reply: &Reply,
        passed: Passed,
    ) -> Result<Passed, WalkFault>
        ensures goes { IfOk result (λ p. (p ≡ passed)
            × SaysReply wording reply.now self.old (R.remaining reader.old) self.new (R.remaining reader.new)) }
        ensures fails { IfErr result (FailsToSay wording reply.now self.old (R.remaining reader.old)) }
        ensures kind { IfErr result IsOfReply }
        ensures reads { Advances R.Source result self.old.entry.lines reader.old self.new.entry.lines reader.new }
    {
        self.reply.clear();
        append_reply(&mut self.reply, wording, reply, self.header.limits)?;
        match expect(&mut self.entry.lines, reader, self.reply.as_slice()) {
            Ok(()) => Ok(passed),
            Err(fault) => Err(fault),
        }
    }
}

// Returns, in format 2, an entry refused for lack of memory: a sweep of format 1 is left out.
fn refused(alloc: Global, asked: &Asked, format: Format) -> Passed
    ensures { IsRefusedAs format asked.now result }
{
    match asked {
        Asked::Line(command) => match older(command, format) {
            Some(_) => Passed::Swept(Merges::new(alloc)),
            None => Passed::AsItStands,
        },
        Asked::Merge(_) => Passed::AsItStands,
    }
}
