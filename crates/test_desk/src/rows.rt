//! The rows: the steps of two passes of one desk.

/// The end of places and positions: the first one that no desk and no store has.
pub(crate) const END: u64 = 1 << 62;

/// A step of one of the passes.
#[derive(Clone, Copy)]
pub(crate) enum Step {
    /// The first pass follows everything, by a subscription of this number.
    Follow(u32),
    /// The first pass publishes a driver's label with a slot, as RS.
    Start(&'static [u8], u16),
    /// The second pass publishes a driver's label with a slot, as RS.
    StartBySecond(&'static [u8], u16),
    /// The first pass looks how far the history goes.
    Look,
    /// The first pass takes a server's notices.
    Take(u32),
}

/// A row: a new desk, the steps of its two passes, and the row of the account that is printed when the desk is closed.
#[derive(Clone, Copy)]
pub(crate) struct Row {
    /// The first place of the desk.
    pub place: u64,
    /// The position of the store.
    pub position: u64,
    pub steps: &'static [Step],
    /// Whether the row first tries to close the desk with a note that isn't learnt, and with a pass missing.
    pub learns: bool,
    /// The number of the subscription whose row is printed.
    pub sub: usize,
}

/// One pass raises a follower's bit, and the other pass finds it pending. The bit is taken once, and the take sees the other pass's call.
/// A note that isn't learnt keeps the desk open, and so does a missing pass. The pass that learns the note sees at least as much as the
/// note's pass did.
pub(crate) const NOTICE: [Row; 1] = [Row {
    place: 0,
    position: 0,
    steps: &[
        Step::Follow(0),
        Step::Start(b"eth0", 16),
        Step::StartBySecond(b"tty", 17),
        Step::Take(0),
        Step::Take(0),
    ],
    learns: true,
    sub: 0,
}];

/// A desk's last place is used, and the next call is Worn. At another desk, the store's last position is used.
pub(crate) const LAST: [Row; 2] = [
    Row {
        place: END - 1,
        position: 0,
        steps: &[
            Step::Start(b"eth0", 16),
            Step::StartBySecond(b"tty", 17),
            Step::Take(0),
        ],
        learns: false,
        sub: 0,
    },
    Row {
        place: 0,
        position: END,
        steps: &[Step::Follow(0), Step::StartBySecond(b"disk", 18)],
        learns: false,
        sub: 0,
    },
];

/// Subscription 127 is owed a notice, which is bit 7 of server 15's word. There is no server 16. After the other pass's call, the follower
/// looks one place further than before.
pub(crate) const BITS: [Row; 1] = [Row {
    place: 0,
    position: 0,
    steps: &[
        Step::Follow(127),
        Step::Look,
        Step::StartBySecond(b"eth0", 16),
        Step::Look,
        Step::Take(14),
        Step::Take(15),
        Step::Take(16),
    ],
    learns: false,
    sub: 127,
}];

/// The numbers of passes and the first places with which no desk is opened: no pass, one pass too many, and a first place above the end.
pub(crate) const NO_DESK: [(u32, u64); 3] = [(0, 0), (65, END + 1), (1, END + 1)];
