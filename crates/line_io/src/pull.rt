//! Lines of at most 4096 bytes, in order.

ghost use Rattle.std.specs.Prelude.{◌≡◌, ◌≤◌, length};
ghost use Rattle.line_io.specs.Lines.{IsUnbroken};
ghost use Rattle.line_io.specs.Pulling.{left, Pulls, PulledBy, IsJudged, ComesToEnd};

use crate::lines::Lines;
use crate::streams::Source;
use crate::transfer::Filled;

/// The most bytes of a line, without its newline.
pub const LONGEST_LINE: usize = 4096;

/// The outcome of a move to the next line.
#[derive(Clone, Copy, PartialEq, Eq)]
pub enum Pulled {
    /// The next line was reached.
    Line,
    /// The next line is above 4096 bytes.
    Long,
    /// No line is left.
    End,
    /// The reader failed, or was called 2^32 times.
    ReadFault,
    /// Out of memory for the line.
    NoRoom,
}

impl Lines {
    /// Moves to the next line. Reads until the line is whole, or too long. The last line may lack its newline.
    pub fn pull<R: Source>(&mut self, reader: &mut R) -> Pulled
        ensures pulls { Pulls result (left self.old (R.remaining reader.old)) (left self.new (R.remaining reader.new)) self.old self.new }
        ensures told { PulledBy R.Source result reader.old reader.new self.old.reads self.new.reads }
    {
        while !self.next() {
            if self.front().len() > LONGEST_LINE {
                return Pulled::Long;
            }
            if !self.may_read() {
                return Pulled::ReadFault;
            }
            match self.read(reader) {
                Filled::More | Filled::Interrupted => {}
                Filled::End => return self.ended(),
                Filled::Failed => return Pulled::ReadFault,
                Filled::NoRoom => return Pulled::NoRoom,
            }
        }
        self.judged()
    }

    // Returns Line or Long, by the current line's length.
    fn judged(&self) -> Pulled
        ensures { IsJudged result self.now.line }
    {
        if self.line().len() > LONGEST_LINE + 1 {
            Pulled::Long
        } else {
            Pulled::Line
        }
    }

    // Moves to the last line, if any, once there is no more to read.
    fn ended(&mut self) -> Pulled
        requires { IsUnbroken self.old.rest }
        ensures ends { ComesToEnd result self.old self.new }
        ensures reads { self.new.reads ≡ self.old.reads }
    {
        match self.last() {
            Ok(true) => Pulled::Line,
            Ok(false) => Pulled::End,
            Err(_) => Pulled::NoRoom,
        }
    }
}
