//! The passes and followers that workers hand back.

use desk_store::Follower;

/// The passes and the followers that no worker has any more.
#[derive(Drop)]
pub(crate) struct Back<P> {
    /// The passes of the first desk.
    pub passes: Vec<P>,
    /// The passes of the second desk.
    pub others: Vec<P>,
    /// The subscribers' followers.
    pub followers: Vec<Follower>,
}
