//! Replies, in few bytes.

/// What is kept of a reply, to compare it with another.
#[derive(Clone, Copy, PartialEq, Eq)]
pub enum Kept {
    /// Refused for lack of memory: nothing changed.
    NoRoom,
    /// Stopped for lack of memory.
    Stopped {
        /// How many items were done before.
        items: usize,
        /// The mask of subscriptions that are owed a notice of them.
        owed: u128,
    },
    /// Any other reply.
    Reply {
        /// A mark that distinguishes it from others.
        mark: u64,
        /// The mask of subscriptions that are owed a notice.
        owed: u128,
    },
}

impl Kept {
    /// Returns whether memory ran out.
    pub fn wants_room(self) -> bool {
        match self {
            Kept::NoRoom | Kept::Stopped { .. } => true,
            Kept::Reply { .. } => false,
        }
    }
}
