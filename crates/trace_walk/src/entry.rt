//! Reads the lines of an entry's command.

ghost use Rattle.std.specs.Prelude.{◌≡◌, ◌≤◌, ◌++◌, ◌∷◌, [], length, true, false, OnOk, IfOk, IfErr};
ghost use Rattle.line_io.specs.Lines.{EndsLine};
ghost use Rattle.trace_walk.specs.Reads.{Continues, CountsOn};
ghost use Rattle.trace_walk.specs.Entry.{AddsItem, AddsItems, AddsLines, MissesItem, MissesItems, MissesLines};
ghost use Rattle.trace_walk.specs.Steps.{ComesToLine, ComesToLong, FindsNone};

use crate::asked::{Asked, AskedFault, Head, read_plus};
use crate::header::Format;
use ds_entry::{Item, Items};
use ds_line::append_all;
use ds_names::NoRoom;
use line_io::{Lines, Pulled, Source};
use std::alloc::Global;

/// Why the lines of an entry can't be read on.
#[derive(Clone, Copy, PartialEq, Eq)]
pub enum EntryFault {
    /// The line with this number, from 1, is above 4096 bytes, or isn't an item's where one must follow.
    BadLine(u64),
    /// The reader failed, or 2^32 reads were made.
    ReadFault,
    /// Out of memory.
    NoRoom,
}

impl From<NoRoom> for EntryFault {
    ghost use Rattle.std.specs.Prelude.{◌≡◌};
    ghost use Rattle.trace_walk.specs.declared.entry.EntryFault.TheVariants as faults;

    ghost from_gives = { λ no_room fault. fault ≡ faults.NoRoom };

    fn from(_no_room: NoRoom) -> EntryFault {
        EntryFault::NoRoom
    }
}

/// Reads the next line, and returns whether there is one.
pub fn next_line<R: Source>(lines: &mut Lines, reader: &mut R) -> Result<bool, EntryFault>
    ensures there { IfOk result (λ s. s ≡ true → ComesToLine lines.old (R.remaining reader.old) lines.new (R.remaining reader.new)) }
    ensures short { IfOk result (λ s. s ≡ true → EndsLine lines.new.line × (length lines.new.line ≤ 4097)) }
    ensures long { IfErr result (λ fault. ComesToLong lines.old (R.remaining reader.old) fault) }
    ensures none { IfOk result (λ s. s ≡ false → FindsNone lines.old (R.remaining reader.old) lines.new.count) }
    ensures reads { Continues R.Source result lines.old reader.old lines.new reader.new }
    ensures counts { IfOk result (λ s. s ≡ true → CountsOn lines.old lines.new) }
{
    let number = lines.count() + 1;
    match lines.pull(reader) {
        Pulled::Line => Ok(true),
        Pulled::End => Ok(false),
        Pulled::Long => Err(EntryFault::BadLine(number)),
        Pulled::ReadFault => Err(EntryFault::ReadFault),
        Pulled::NoRoom => Err(EntryFault::NoRoom),
    }
}

/// The lines of a trace, and the text of the command that is read from them.
#[derive(Drop)]
pub struct EntryReader {
    /// The lines.
    pub lines: Lines,
    /// The lines of the command so far, as a trace has them.
    pub text: Vec<u8>,
}

impl EntryReader {
    /// Reads the rest of a command whose first line was read: the items of a Merge. Adds their lines to the text.
    pub fn asked<R: Source>(
        &mut self,
        alloc: Global,
        reader: &mut R,
        format: Format,
        head: Head,
    ) -> Result<Asked, EntryFault>
        ensures goes { IfOk result (AddsLines format self.old (R.remaining reader.old) head self.new (R.remaining reader.new)) }
        ensures fails { IfErr result (MissesLines format self.old (R.remaining reader.old) head) }
        ensures reads { Continues R.Source result self.old.lines reader.old self.new.lines reader.new }
    {
        match head {
            Head::Line(command) => Ok(Asked::Line(command)),
            Head::Merge(count) => Ok(Asked::Merge(self.items(alloc, reader, format, count)?)),
        }
    }

    // Reads the items of a Merge.
    fn items<R: Source>(
        &mut self,
        alloc: Global,
        reader: &mut R,
        format: Format,
        count: u64,
    ) -> Result<Items, EntryFault>
        ensures goes { IfOk result (AddsItems format self.old (R.remaining reader.old) count self.new (R.remaining reader.new)) }
        ensures fails { IfErr result (MissesItems format self.old (R.remaining reader.old) count) }
        ensures reads { Continues R.Source result self.old.lines reader.old self.new.lines reader.new }
    {
        let mut items = Items::new(alloc);
        for _index in 0..count {
            self.item(alloc, reader, format, &mut items)?;
        }
        Ok(items)
    }

    // Reads one more item.
    fn item<R: Source>(
        &mut self,
        alloc: Global,
        reader: &mut R,
        format: Format,
        items: &mut Items,
    ) -> Result<(), EntryFault>
        ensures goes { OnOk result
            (AddsItem format self.old (R.remaining reader.old) items.old self.new (R.remaining reader.new) items.new) }
        ensures fails { IfErr result (MissesItem format self.old (R.remaining reader.old)) }
        ensures reads { Continues R.Source result self.old.lines reader.old self.new.lines reader.new }
    {
        if !next_line(&mut self.lines, reader)? {
            return Err(EntryFault::BadLine(self.lines.count() + 1));
        }
        let line = self.lines.line();
        match read_plus(alloc, line, format) {
            Ok(item) => {
                append_all(&mut self.text, &[line])?;
                push(items, item)?;
                Ok(())
            }
            Err(AskedFault::BadLine) => Err(EntryFault::BadLine(self.lines.count())),
            Err(AskedFault::NoRoom) => Err(EntryFault::NoRoom),
        }
    }
}

// Adds an item at the end, or nothing.
fn push(items: &mut Items, item: Item) -> Result<(), NoRoom>
    ensures { OnOk result (items.new ≡ items.old ++ item ∷ []) }
{
    items.push(item)?;
    Ok(())
}
