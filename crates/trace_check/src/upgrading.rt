//! Traces of format 1, written in format 2.

ghost use Rattle.std.specs.Prelude.{◌≡◌, IfOk, IfErr, IfSome};
ghost use Rattle.trace_walk.specs.Upgrade.{upgraded};
ghost use Rattle.trace_check.specs.Upgrading.{EndsAfterHeader, EndsUpgraded, BlamesUpgrade, BlamesUpgradeOn};
ghost use Rattle.trace_check.specs.Upgrading.{StopsAfterHeader, StopsUpgrading, UpgradesAll, UpgradesInPart};

use ds_names::NoRoom;
use line_io::{Sink, Source, WriteFailed, write_out};
use std::alloc::Global;
use thiserror::Error;
use trace_walk::{Format, Header, Walk, WalkFault, append_header, append_passed};

/// Why a trace wasn't upgraded, or not whole.
#[derive(Clone, Copy, Debug, PartialEq, Eq, Error)]
pub enum UpgradeFault {
    /// Not legal: this line, from 1, must be a reply line, and isn't one that a legal trace has there.
    #[error("illegal {0}")]
    IllegalAt(u64),
    /// Not legal: this line must be a header, a `>` or a `+` line, and isn't one that a legal trace has there.
    #[error("badline {0}")]
    BadLineAt(u64),
    /// The trace is of format 2. Nothing was written.
    #[error("already 2")]
    AlreadyTwo,
    /// The reader failed, or 2^32 reads were made.
    #[error("readfault")]
    ReadFault,
    /// The writer failed.
    #[error("writefault")]
    WriteFault,
    /// Out of memory.
    #[error("noroom")]
    NoRoom,
}

impl From<WalkFault> for UpgradeFault {
    ghost use Rattle.std.specs.Prelude.{◌≡◌};
    ghost use Rattle.trace_check.specs.Upgrading.{upgrade_fault};

    ghost from_gives = { λ fault given. given ≡ upgrade_fault fault };

    fn from(fault: WalkFault) -> UpgradeFault {
        match fault {
            WalkFault::IllegalAt(line) => UpgradeFault::IllegalAt(line),
            WalkFault::BadLineAt(line) => UpgradeFault::BadLineAt(line),
            WalkFault::ReadFault => UpgradeFault::ReadFault,
            WalkFault::NoRoom => UpgradeFault::NoRoom,
        }
    }
}

impl From<WriteFailed> for UpgradeFault {
    ghost use Rattle.std.specs.Prelude.{◌≡◌};
    ghost use Rattle.trace_check.specs.declared.upgrading.UpgradeFault.TheVariants as faults;

    ghost from_gives = { λ failed given. given ≡ faults.WriteFault };

    fn from(_failed: WriteFailed) -> UpgradeFault {
        UpgradeFault::WriteFault
    }
}

impl From<NoRoom> for UpgradeFault {
    ghost use Rattle.std.specs.Prelude.{◌≡◌};
    ghost use Rattle.trace_check.specs.declared.upgrading.UpgradeFault.TheVariants as faults;

    ghost from_gives = { λ no_room given. given ≡ faults.NoRoom };

    fn from(_no_room: NoRoom) -> UpgradeFault {
        UpgradeFault::NoRoom
    }
}

/// Writes a trace of format 1 in format 2, each entry once its reply is found legal, and returns how many entries were
/// written. A sweep becomes Merges of the tombstones that it leaves, at most 256 each; one that leaves none, or is
/// refused, is left out. All other entries are unchanged.
///
/// After IllegalAt and BadLineAt, all entries before the wrong line's are written; after ReadFault and NoRoom, those of
/// some first lines, in whole entries; after AlreadyTwo, nothing; after WriteFault, a front of such a trace. ReadFault
/// comes only if the last read failed, or 2^32 reads were made; WriteFault only if the last write failed or took no
/// bytes, or after 2^64 - 1 writes.
pub fn upgrade<R: Source, W: Sink>(
    alloc: Global,
    reader: &mut R,
    writer: &mut W,
) -> Result<u64, UpgradeFault>
    ensures upgraded { IfOk result (λ count. IfSome (R.remaining reader.old)
        (λ bytes. UpgradesAll bytes (W.contents writer.old) (W.contents writer.new) count)) }
    ensures stopped { IfErr result (λ fault. IfSome (R.remaining reader.old)
        (λ bytes. UpgradesInPart bytes (W.contents writer.old) (W.contents writer.new) fault)) }
    ensures cause { IfErr result (λ fault. BlamesUpgrade R.Source W.Sink fault reader.old reader.new writer.old writer.new) }
{
    let mut walk = Walk::begin(alloc, reader)?;
    upgrade_after_header(alloc, &mut walk, reader, writer)
}

// Writes the trace whose header the walk read, header first.
fn upgrade_after_header<R: Source, W: Sink>(
    alloc: Global,
    walk: &mut Walk,
    reader: &mut R,
    writer: &mut W,
) -> Result<u64, UpgradeFault>
    ensures upgraded { IfOk result (EndsAfterHeader walk.old (R.remaining reader.old) (W.contents writer.old) (W.contents writer.new)) }
    ensures stopped { IfErr result (StopsAfterHeader walk.old (R.remaining reader.old) (W.contents writer.old) (W.contents writer.new)) }
    ensures cause { IfErr result (BlamesUpgradeOn R.Source W.Sink walk.old.entry.lines.reads reader.old reader.new writer.old writer.new) }
{
    let header = walk.header();
    match header.format {
        Format::One => {}
        Format::Two => return Err(UpgradeFault::AlreadyTwo),
    }
    let mut text = Vec::new(alloc);
    append_header(&mut text, &upgraded(header))?;
    write_out(writer, text.as_slice())?;
    upgrade_entries(alloc, walk, reader, writer)
}

// Returns the header in format 2.
fn upgraded(header: Header) -> Header
    ensures { result ≡ upgraded header }
{
    Header {
        format: Format::Two,
        incarnation: header.incarnation,
        first: header.first,
        ring: header.ring,
        limits: header.limits,
    }
}

// Passes all entries, and writes each in format 2.
fn upgrade_entries<R: Source, W: Sink>(
    alloc: Global,
    walk: &mut Walk,
    reader: &mut R,
    writer: &mut W,
) -> Result<u64, UpgradeFault>
    ensures all { IfOk result (EndsUpgraded walk.old (R.remaining reader.old) (W.contents writer.old) (W.contents writer.new)) }
    ensures part { IfErr result (StopsUpgrading walk.old (R.remaining reader.old) (W.contents writer.old) (W.contents writer.new)) }
    ensures cause { IfErr result (BlamesUpgradeOn R.Source W.Sink walk.old.entry.lines.reads reader.old reader.new writer.old writer.new) }
{
    let mut text = Vec::new(alloc);
    let mut written: u64 = 0;
    for _entry in 0..u64::MAX {
        let Some(passed) = walk.next(reader)? else {
            return Ok(written);
        };
        text.clear();
        let count = append_passed(&mut text, walk, &passed)?;
        write_out(writer, text.as_slice())?;
        written += count;
    }
    // No input has this many entries: 2^32 reads bring fewer.
    Err(UpgradeFault::ReadFault)
}
