//! What a bridge asks its server, and what it reads.

/// What the clock and the caller's limits say of the next question.
#[derive(Clone, Copy)]
pub struct Due {
    /// Whether the log is to be compacted.
    pub compaction: bool,
    /// The most items that one question adds, at least one.
    pub most: u64,
}

/// The next question of the connection that asks, or what has to be done before it.
#[derive(Clone, Copy)]
pub enum Question {
    /// Nothing is to be asked.
    Nothing,
    /// The server's history.
    Meet,
    /// The snapshot.
    Fetch,
    /// No question: all held items, except those that were read, are to be put into the outbox first.
    Refill,
    /// To add the outbox's first items: their number.
    Add(u64),
    /// To add the whole outbox and to compact, in one transaction.
    Compact,
}

/// An answer to a reading.
#[derive(Clone, Copy)]
pub struct Reading {
    /// The history that the bridge had met when it asked.
    pub history: Option<u64>,
    /// The id of the entry after which the reading began; 0: at the log's front.
    pub from: u128,
    /// The id of the snapshot's last entry when the reading was answered; 0: there is none.
    pub end: u128,
    /// The id of the last entry read; `from` if there is none.
    pub last: u128,
    /// Whether that was the log's last entry.
    pub is_all: bool,
    /// Whether an item of an entry found no memory, and was dropped.
    pub has_dropped: bool,
}
