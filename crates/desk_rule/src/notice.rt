//! Notices: the steps at the pending words. These types are for proofs, and have no values at run time.

/// The effect of a step at a server's pending word.
pub enum Act {
    /// Sets bits.
    Post {
        /// The bits. Bit k is the server's subscription k.
        bits: u64,
        /// The place of the call that owes them.
        place: u64,
    },
    /// Swaps the word for 0, which takes all of its bits.
    Take,
}

/// One step at a server's pending word.
pub struct Notice {
    /// The number of the pass that made the step.
    pub pass: u64,
    /// The server, below 16.
    pub server: u64,
    /// The word before the step.
    pub found: u64,
    /// The effect.
    pub act: Act,
}
