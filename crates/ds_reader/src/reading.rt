//! What a reader asks for.

use ds_pattern::Query;

/// What a service reads, and in how many commands.
#[derive(Drop)]
pub struct Reading {
    /// The entries to read: those under this query, and all floors.
    pub query: Query,
    /// How many items to ask for at once, 1 to 256.
    pub max: u32,
    /// How many commands of one kind to send at most.
    pub questions: u32,
}
