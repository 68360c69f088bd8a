//! A walk through a trace, entry by entry.

ghost use Rattle.std.specs.Prelude.{◌≡◌, IfOk, IfErr, IfSome, IfNone};
ghost use Rattle.trace_walk.specs.Reads.{Advances, BeginsReading, CountsOn};
ghost use Rattle.trace_walk.specs.Steps.{BeginsKnown, IsFaultOfKnown, GoesPast, EndsThere, FailsFrom, ReadsHead};
ghost use Rattle.trace_walk.specs.Steps.{ReadsAsked, FailsAfterHead};
ghost use Rattle.trace_walk.specs.Wanting.{IsWantedOfKnown, WantsFrom, WantsAfterHead};
ghost use Rattle.trace_walk.specs.declared.wrong_line.Wanted.TheVariants as wanteds;

mod judging;

use crate::asked::{Asked, Head, read_head};
use crate::entry::{EntryReader, next_line};
use crate::fault::WalkFault;
use crate::header::{Header, read_header};
use crate::passed::Passed;
use ds_store::Store;
use line_io::{Lines, Source};
use std::alloc::Global;

/// A walk under way: its place in the input, the store, and the header that opened it.
///
/// Of the current entry it keeps the lines of the command, and those of the reply without their marks. The reply is
/// expected from line `first` on.
#[derive(Drop)]
pub struct Walk {
    alloc: Global,
    pub(crate) entry: EntryReader,
    store: Store,
    header: Header,
    pub(crate) in_items: bool,
    pub(crate) reply: Vec<u8>,
    pub(crate) first: u64,
}

impl Walk {
    /// Reads the header, and opens a store by it.
    pub fn begin<R: Source>(alloc: Global, reader: &mut R) -> Result<Walk, WalkFault>
        ensures begins { IfOk result (λ walk. BeginsKnown (R.remaining reader.old) walk (R.remaining reader.new)) }
        ensures fails { IfErr result (λ fault. IsFaultOfKnown (R.remaining reader.old) fault) }
        ensures wanted { IfErr result (IsWantedOfKnown (R.remaining reader.old) wanteds.Header) }
        ensures reads { BeginsReading R.Source result reader.old reader.new }
    {
        let mut lines = Lines::new(alloc)?;
        if !next_line(&mut lines, reader)? {
            return Err(WalkFault::BadLineAt(1));
        }
        let Some(header) = read_header(lines.line()) else {
            return Err(WalkFault::BadLineAt(1));
        };
        let opened = Store::open_with(
            alloc,
            header.incarnation,
            header.first,
            header.ring,
            header.limits,
        );
        let Ok(store) = opened else {
            return Err(WalkFault::NoRoom);
        };
        Ok(Walk {
            alloc,
            entry: EntryReader {
                lines,
                text: Vec::new(alloc),
            },
            store,
            header,
            in_items: false,
            reply: Vec::new(alloc),
            first: 0,
        })
    }

    /// Returns the header that the store was opened with.
    pub fn header(&self) -> Header
        ensures { result ≡ self.now.header }
    {
        self.header
    }

    /// Walks past one entry, if there is one, and returns its form in format 2, if the trace has format 1.
    pub fn next<R: Source>(&mut self, reader: &mut R) -> Result<Option<Passed>, WalkFault>
        ensures goes { IfOk result (λ o. IfSome o (GoesPast self.old (R.remaining reader.old) self.new (R.remaining reader.new))) }
        ensures ends { IfOk result (λ o. IfNone o (EndsThere self.old (R.remaining reader.old))) }
        ensures fails { IfErr result (λ fault. FailsFrom self.old (R.remaining reader.old) fault) }
        ensures wanted { IfErr result (WantsFrom self.old (R.remaining reader.old) self.new) }
        ensures reads { Advances R.Source result self.old.entry.lines reader.old self.new.entry.lines reader.new }
        ensures counts { IfOk result (λ o. IfSome o (λ p. CountsOn self.old.entry.lines self.new.entry.lines)) }
    {
        let Some((pass, head)) = self.head(reader)? else {
            return Ok(None);
        };
        let asked = self.asked(reader, head)?;
        match self.judge(reader, pass, asked) {
            Ok(passed) => Ok(Some(passed)),
            Err(fault) => Err(fault),
        }
    }

    // Reads the first line of an entry, if there is one.
    fn head<R: Source>(&mut self, reader: &mut R) -> Result<Option<(u64, Head)>, WalkFault>
        ensures some { IfOk result (λ o. IfSome o (ReadsHead self.old (R.remaining reader.old) self.new (R.remaining reader.new))) }
        ensures none { IfOk result (λ o. IfNone o (EndsThere self.old (R.remaining reader.old))) }
        ensures fails { IfErr result (λ fault. FailsFrom self.old (R.remaining reader.old) fault) }
        ensures wanted { IfErr result (WantsFrom self.old (R.remaining reader.old) self.new) }
        ensures reads { Advances R.Source result self.old.entry.lines reader.old self.new.entry.lines reader.new }
        ensures counts { IfOk result (λ o. IfSome o (λ p. CountsOn self.old.entry.lines self.new.entry.lines)) }
    {
        self.in_items = false;
        if !next_line(&mut self.entry.lines, reader)? {
            return Ok(None);
        }
        match read_head(self.alloc, self.entry.lines.line(), self.header.format) {
            Ok(read) => {
                self.entry.text.clear();
                self.entry.text.extend_from_slice(self.entry.lines.line())?;
                self.reply.clear();
                Ok(Some(read))
            }
            Err(fault) => Err(WalkFault::of_line(fault, self.entry.lines.count())),
        }
    }

    // Reads the rest of a command: the items of a Merge.
    fn asked<R: Source>(&mut self, reader: &mut R, head: Head) -> Result<Asked, WalkFault>
        ensures goes { IfOk result (ReadsAsked self.old (R.remaining reader.old) head self.new (R.remaining reader.new)) }
        ensures fails { IfErr result (FailsAfterHead self.old (R.remaining reader.old) head) }
        ensures wanted { IfErr result (WantsAfterHead self.old (R.remaining reader.old) head self.new) }
        ensures reads { Advances R.Source result self.old.entry.lines reader.old self.new.entry.lines reader.new }
    {
        self.in_items = true;
        let asked = self
            .entry
            .asked(self.alloc, reader, self.header.format, head)?;
        Ok(asked)
    }
}
