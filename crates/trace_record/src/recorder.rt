//! A recording under way.

ghost use Rattle.std.specs.Prelude.{◌≡◌, ◌≢◌, None, OnOk, OnErr, IfOk, IfErr};
ghost use Rattle.line_io.specs.Lines.{EndsLine};
ghost use Rattle.line_io.specs.Pulling.{LeadsOn};
ghost use Rattle.trace_walk.specs.Text.{command_asked};
ghost use Rattle.trace_record.specs.Causes.{IsCausedOn};
ghost use Rattle.trace_record.specs.Reading.{IsOfLines};
ghost use Rattle.trace_record.specs.Steps.{KeepsOutput, OpensAs, HeadsFrom, FailsAtHead, AddsReply, AnswersAsked, AddsEntry, FailsInEntry};

use crate::asking::ask_store;
use crate::fault::RecordFault;
use crate::form::Form;
use crate::line::read_asking;
use crate::pass::append_asking;
use crate::place::place_of_missing;
use ds_line::append_all;
use ds_machine::Reply;
use ds_store::Store;
use line_io::{Lines, Source};
use script_answers::{Wording, append_reply};
use std::alloc::Global;
use trace_walk::{Asked, EntryFault, EntryReader, Head, Header, append_header, append_marked};

/// A recording under way: its place in the input with the text of the current entry, the store and its header, whole
/// entries that wait to be written, and the text of the current reply.
#[derive(Drop)]
pub(crate) struct Recorder {
    alloc: Global,
    pub entry: EntryReader,
    store: Store,
    header: Header,
    pub output: Vec<u8>,
    reply: Vec<u8>,
}

impl Recorder {
    /// Opens the store. The header waits to be written.
    pub fn open(alloc: Global, lines: Lines, form: Form, ring: u32) -> Result<Recorder, RecordFault>
        ensures opens { IfOk result (OpensAs lines form ring) }
        ensures fault { IfErr result (λ fault. fault ≡ RecordFault.NoRoom) }
    {
        let header = form.header(ring);
        let mut output = Vec::new(alloc);
        append_header(&mut output, &header)?;
        let opened = Store::open_with(
            alloc,
            header.incarnation,
            header.first,
            header.ring,
            header.limits,
        );
        let Ok(store) = opened else {
            return Err(RecordFault::NoRoom);
        };
        Ok(Recorder {
            alloc,
            entry: EntryReader {
                lines,
                text: Vec::new(alloc),
            },
            store,
            header,
            output,
            reply: Vec::new(alloc),
        })
    }

    /// Records the entry at whose first line the input is. After a fault, the waiting entries are unchanged.
    pub fn entry<R: Source>(&mut self, reader: &mut R) -> Result<(), RecordFault>
        requires { EndsLine self.old.entry.lines.line }
        ensures goes { OnOk result (AddsEntry self.old (R.remaining reader.old) self.new (R.remaining reader.new)) }
        ensures fails { IfErr result (FailsInEntry self.old (R.remaining reader.old) self.new) }
        ensures led { OnOk result (LeadsOn R.reads self.old.entry.lines.reads self.new.entry.lines.reads reader.old reader.new) }
        ensures cause { IfErr result (λ fault. IsCausedOn R.Source fault reader.old reader.new self.old.entry.lines.reads) }
    {
        let head = self.head()?;
        match self
            .entry
            .asked(self.alloc, reader, self.header.format, head)
        {
            Ok(asked) => self.answer(asked),
            Err(fault) => Err(missing(self.alloc, &self.entry.lines, fault)),
        }
    }

    // Reads the first line of an entry, which was reached already.
    fn head(&mut self) -> Result<Head, RecordFault>
        requires { EndsLine self.old.entry.lines.line }
        ensures goes { IfOk result (HeadsFrom self.old self.new) }
        ensures fails { IfErr result (FailsAtHead self.old self.new) }
    {
        let line = self.entry.lines.line();
        self.entry.text.clear();
        append_asking(&mut self.entry.text, line)?;
        read_asking(
            self.alloc,
            self.entry.text.as_slice(),
            line,
            self.entry.lines.count(),
            self.header.format,
        )
    }

    // Applies the command to the store, and adds the entry with its reply to the waiting ones.
    fn answer(&mut self, asked: Asked) -> Result<(), RecordFault>
        requires { command_asked asked ≢ None }
        ensures goes { OnOk result (AnswersAsked self.old asked self.new) }
        ensures fault { IfErr result (λ fault. fault ≡ RecordFault.NoRoom) }
        ensures kept { OnErr result (KeepsOutput self.old self.new) }
    {
        let answer = ask_store(self.alloc, &mut self.store, self.header.format, asked)?;
        self.add_reply(answer.wording, &answer.reply)
    }

    // Adds the entry with this reply to the waiting ones.
    fn add_reply(&mut self, wording: Wording, reply: &Reply) -> Result<(), RecordFault>
        ensures adds { OnOk result (AddsReply wording reply.now self.old self.new) }
        ensures fault { IfErr result (λ fault. fault ≡ RecordFault.NoRoom) }
        ensures kept { OnErr result (KeepsOutput self.old self.new) }
    {
        self.reply.clear();
        append_reply(&mut self.reply, wording, reply, self.header.limits)?;
        append_marked(&mut self.entry.text, self.reply.as_slice())?;
        append_all(&mut self.output, &[self.entry.text.as_slice()])?;
        Ok(())
    }
}

// Returns the fault of a command whose further lines can't be read.
fn missing(alloc: Global, lines: &Lines, fault: EntryFault) -> RecordFault
    ensures { IsOfLines fault result }
{
    let place = match fault {
        EntryFault::BadLine(number) => place_of_missing(alloc, lines, number),
        _ => 0,
    };
    RecordFault::of_lines(fault, place)
}
