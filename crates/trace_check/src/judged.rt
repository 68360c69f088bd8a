//! The line that a verdict names.

ghost use Rattle.std.specs.Prelude.{◌≡◌, IfSome, IfNone};
ghost use Rattle.trace_check.specs.Telling.{IsOfLine, TellsNoLine, wanted_by};

use trace_walk::{Stands, Verdict, Walk, Wanted, WrongLine};

/// A verdict on a trace, with the walk that reached it.
#[derive(Drop)]
pub struct Judged {
    /// The verdict.
    pub verdict: Verdict,
    pub(crate) walk: Option<Walk>,
}

impl Judged {
    /// Returns the first wrong line, if there is one.
    pub fn wrong_line(&self) -> Option<WrongLine<'_>>
        ensures found { IfSome result (λ line. IsOfLine self.now line.number line.wanted) }
        ensures none { IfNone result (TellsNoLine self.now.verdict) }
    {
        match self.verdict {
            Verdict::IllegalAt(number) => Some(self.line_at(number, Wanted::Reply)),
            Verdict::BadLineAt(number) => Some(self.line_at(number, self.wanted())),
            _ => None,
        }
    }

    // Returns the sort of line that was expected instead of a bad one.
    fn wanted(&self) -> Wanted
        ensures { result ≡ wanted_by self.now.walk }
    {
        match &self.walk {
            None => Wanted::Header,
            Some(walk) => walk.wanted(),
        }
    }

    // Returns the wrong line of this number.
    fn line_at(&self, number: u64, wanted: Wanted) -> WrongLine<'_>
        ensures number { result.number ≡ number }
        ensures wanted { result.wanted ≡ wanted }
    {
        match &self.walk {
            None => WrongLine {
                number,
                wanted,
                asked: &[],
                reply: None,
                stands: Stands::Nothing,
            },
            Some(walk) => walk.line_at(number, wanted),
        }
    }
}
