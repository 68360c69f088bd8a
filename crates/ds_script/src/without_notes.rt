//! A source without comments and empty lines.

use crate::place::{Place, keep};
use line_io::{Missed, Source};

/// A source of what is left of another one's bytes, from the beginning of a line on.
#[derive(Drop)]
pub(crate) struct WithoutNotes<'a, R> {
    pub reader: &'a mut R,
    pub place: Place,
}

impl<R: Source> Source for WithoutNotes<'_, R> {
    ghost use Rattle.ds_script.specs.NoteCauses.{EndsReading, SomeReadsLead};
    ghost use Rattle.ds_script.specs.Left.{text_left};
    ghost use Rattle.std.specs.Prelude.{◌≡◌, ◌-◌, ◌^◌};
    ghost use Rattle.std.specs.Option.{option_map};

    ghost remaining = { λ s. option_map (λ text. text_left s.place text) (R.remaining s.reader.now) };

    ghost reads = { λ old new. (new.reader.ghost_name ≡ old.reader.ghost_name)
        × SomeReadsLead R.reads old.reader.now new.reader.now };

    ghost fails = { λ old new. (new.reader.ghost_name ≡ old.reader.ghost_name)
        × EndsReading (2 ^ 64 - 1) R.reads R.fails old.reader.now new.reader.now };

    fn read(&mut self, buf: &mut [u8]) -> Result<usize, Missed> {
        for _again in 0..u64::MAX {
            let count = self.reader.read(buf)?;
            if count == 0 {
                return Ok(0);
            }
            let kept = keep(&mut self.place, &mut buf[..count]);
            if kept > 0 {
                return Ok(kept);
            }
        }
        Err(Missed::Failed)
    }
}
