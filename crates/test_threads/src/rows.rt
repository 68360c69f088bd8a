//! The rows: the steps at two desks.

use crate::asked::Asked;

/// A step of a row.
#[derive(Clone, Copy)]
pub(crate) enum Step {
    /// Sends a command to the first store.
    Ask(Asked<'static>),
    /// Sends a command to the second store.
    AskSecond(Asked<'static>),
    /// Publishes the labels of drivers at the first store, as RS, from the first number up to below the second.
    StartMany(u32, u32),
    /// Prints how far the first desk's history goes.
    Look,
    /// Refreshes the follower by at most this many calls.
    Refresh(u32),
    /// Takes the follower's notices.
    Take,
    /// Prints the generation of a label's endpoint in the follower's map.
    TellLabel(&'static [u8]),
    /// Marks the follower lost.
    Lose,
    /// Makes an exchange from the first store to the second, from the cursor of the last such exchange on.
    Give,
    /// Makes an exchange of all that the second store holds to the first.
    GiveBack,
    /// Forgets the cursor of the last exchange.
    Forget,
}

/// The comparison after all steps, when the desks are closed.
#[derive(Clone, Copy)]
pub(crate) enum End {
    /// Nothing.
    Open,
    /// The follower's map with the first store.
    Map,
    /// Both stores.
    Stores,
}

/// A row.
#[derive(Clone, Copy)]
pub(crate) struct Row {
    /// The number of items that the first store's journal keeps.
    pub ring: u32,
    /// The number of the follower's subscription.
    pub sub: u32,
    /// The pattern that the follower has, which is also that of the comparison.
    pub pattern: &'static [u8],
    pub steps: &'static [Step],
    pub end: End,
}

/// All rows, the short ones first.
pub(crate) const ROWS: [Row; 5] = [
    FOLLOW_A_DRIVER,
    EXCHANGE_ONE,
    EXCHANGE_BEHIND,
    FOLLOW_MANY,
    EXCHANGE_MANY,
];

// A follower of `eth.*` learns a driver's endpoint. A limit of 1 is refused, and the follower is lost. A later generation owes it a notice.
// Another program replaces its subscription, which the next Check shows. The follower is made lost, and begins again.
const FOLLOW_A_DRIVER: Row = Row {
    ring: 256,
    sub: 0,
    pattern: b"eth.*",
    steps: &[
        Step::Ask(Asked::Start(b"eth0", 3, 17)),
        Step::Refresh(1),
        Step::Refresh(2),
        Step::TellLabel(b"eth0"),
        Step::Ask(Asked::Sweep(b"eth0", 3)),
        Step::Ask(Asked::Start(b"eth0", 4, 17)),
        Step::Ask(Asked::Start(b"disk", 1, 17)),
        Step::Take,
        Step::Refresh(2),
        Step::TellLabel(b"eth0"),
        Step::Ask(Asked::TakeOver(0)),
        Step::Refresh(2),
        Step::Refresh(2),
        Step::Lose,
        Step::Refresh(65537),
        Step::Refresh(65536),
    ],
    end: End::Map,
};

// A label is sent to an empty store. What that store then sends back is known already. When both stores have the label with one version
// and two slots, the exchange is stopped.
const EXCHANGE_ONE: Row = Row {
    ring: 256,
    sub: 0,
    pattern: b".*",
    steps: &[
        Step::Ask(Asked::Start(b"eth0", 3, 17)),
        Step::Give,
        Step::GiveBack,
        Step::Ask(Asked::Start(b"disk", 1, 17)),
        Step::Ask(Asked::Start(b"eth0", 4, 17)),
        Step::AskSecond(Asked::Start(b"eth0", 4, 18)),
        Step::Forget,
        Step::Give,
    ],
    end: End::Open,
};

// A journal of two items doesn't reach back to a cursor that is three calls old. Without a cursor everything is sent, a floor before the
// changes. When it is sent again, nothing of it is new.
const EXCHANGE_BEHIND: Row = Row {
    ring: 2,
    sub: 0,
    pattern: b".*",
    steps: &[
        Step::Ask(Asked::Start(b"eth0", 3, 17)),
        Step::Give,
        Step::Ask(Asked::Sweep(b"eth0", 3)),
        Step::Ask(Asked::Start(b"eth0", 4, 17)),
        Step::Ask(Asked::Start(b"disk", 1, 17)),
        Step::Give,
        Step::Give,
        Step::Forget,
        Step::Give,
    ],
    end: End::Stores,
};

// A follower of 300 labels must check twice, and so it must refresh twice, by two calls each.
const FOLLOW_MANY: Row = Row {
    ring: 256,
    sub: 8,
    pattern: b".*",
    steps: &[Step::StartMany(0, 300), Step::Refresh(2), Step::Refresh(2)],
    end: End::Map,
};

// 300 labels are sent by two pages, and what is published after them by the journal, 256 items at a time.
const EXCHANGE_MANY: Row = Row {
    ring: 4096,
    sub: 0,
    pattern: b".*",
    steps: &[
        Step::StartMany(0, 300),
        Step::Look,
        Step::Give,
        Step::Look,
        Step::StartMany(300, 600),
        Step::Give,
        Step::Give,
    ],
    end: End::Stores,
};
