//! The tasks of workers.

use desk_store::Follower;
use ds_feed::Cursor;

/// A worker's task. The type of a pass is a parameter, so that the compiler finds a task to be `Send`.
#[derive(Drop)]
pub enum Task<P> {
    /// Overwrites the worker's number in the first desk's store.
    Publish,
    /// Keeps a map of the first desk's store.
    Follow(Follower),
    /// Sends what the first desk's store holds to the second's.
    Exchange {
        /// The worker's pass of the second desk.
        other: P,
        /// The cursor of the next exchange.
        cursor: Option<Cursor>,
    },
}
