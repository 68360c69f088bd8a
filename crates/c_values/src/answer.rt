//! Answers for C.

ghost use Rattle.std.specs.Prelude.{◌≡◌};
ghost use Rattle.c_values.specs.Answer.{word_number, worded, no_request, told_shown, told_bad_line};

/// The word of an answer. First come the variants of `Reply` in their order, and then words of answers without a reply.
#[derive(Clone, Copy)]
pub enum Word {
    Changed,
    Known,
    Swept,
    Found,
    Named,
    Subscribed,
    Checked,
    Journaled,
    Snapped,
    Paged,
    Merged,
    MergeStopped,
    Refused,
    /// The request isn't a command.
    NoRequest,
    /// Held items are shown.
    Shown,
    /// The line can't be read.
    BadLine,
    /// RS has taken an event.
    Acted,
}

/// An answer without its text, which a caller fetches in pieces.
#[repr(C)]
#[derive(Clone, Copy)]
pub struct Answer {
    /// A count: the puts that a Sweep dropped, the items that a Merge has done or that are shown, or RS's actions. For a bad line, the byte
    /// at which it is bad.
    pub count: u64,
    /// The number of a Merge's items that took effect, and of those that were stale.
    pub taken: u64,
    pub stale: u64,
    /// The stamps before and after a Check, or a cursor's incarnation and position. A Subscribe has its stamp in `after`.
    pub before: u64,
    pub after: u64,
    /// The number of pieces of text: one for a name, a text or a blob, and one for each item.
    pub pieces: u64,
    /// The number of the answer's `Word`.
    pub word: u32,
    /// The number of the refusal that refused or stopped the request, or 0.
    pub refusal: u32,
    /// The version of a clash.
    pub epoch: u32,
    pub seq: u32,
    /// The number that was found, or the generation of an endpoint.
    pub value: u32,
    /// The slot of an endpoint.
    pub value_slot: u16,
    /// The kind of the value that was found, as in a request.
    pub kind: u8,
    /// 1 if a page is the last one.
    pub last: u8,
    /// The subscriptions that are owed a notice. Subscription SUB is bit SUB % 8 of byte SUB / 8.
    pub owed: [u8; 16],
}

impl Word {
    // Returns the number of a word: its index among the variants.
    fn number(self) -> u32
        ensures { result ≡ word_number self }
    {
        match self {
            Word::Changed => 0,
            Word::Known => 1,
            Word::Swept => 2,
            Word::Found => 3,
            Word::Named => 4,
            Word::Subscribed => 5,
            Word::Checked => 6,
            Word::Journaled => 7,
            Word::Snapped => 8,
            Word::Paged => 9,
            Word::Merged => 10,
            Word::MergeStopped => 11,
            Word::Refused => 12,
            Word::NoRequest => 13,
            Word::Shown => 14,
            Word::BadLine => 15,
            Word::Acted => 16,
        }
    }
}

impl Answer {
    /// Returns an answer with this word, and zeros.
    pub fn of(word: Word) -> Answer
        ensures { result ≡ worded word }
    {
        Answer {
            count: 0,
            taken: 0,
            stale: 0,
            before: 0,
            after: 0,
            pieces: 0,
            word: word.number(),
            refusal: 0,
            epoch: 0,
            seq: 0,
            value: 0,
            value_slot: 0,
            kind: 0,
            last: 0,
            owed: [0; 16],
        }
    }

    /// Returns the answer to a request that isn't a command.
    pub fn no_request() -> Answer
        ensures { result ≡ no_request }
    {
        Answer::of(Word::NoRequest)
    }

    /// Returns the answer to a show of `count` items, one text piece each.
    pub fn shown(count: usize) -> Answer
        ensures { result ≡ told_shown count }
    {
        Answer {
            count: count as u64,
            pieces: count as u64,
            ..Answer::of(Word::Shown)
        }
    }

    /// Returns the answer to a line whose first bad part begins at the byte `place`.
    pub fn bad_line(place: usize) -> Answer
        ensures { result ≡ told_bad_line place }
    {
        Answer {
            count: place as u64,
            ..Answer::of(Word::BadLine)
        }
    }
}
